//! The file digests that a runtime policy names for each path.
//!
//! [`spelled_digest`] reads a digest's digits, [`KnownDigests`] are the digests of one path, and [`DigestMap`] finds them by the
//! path. Contracts see sets, and a map from paths to them.
#![tactic(auto)]

mod digests;
mod packed;
mod spelling;

pub use digests::{DigestMap, KnownDigests};
pub use kl_base::Memory;
pub use kl_entry::FileDigest;
pub use spelling::spelled_digest;
