//! PCR banks: the hash algorithms of a TPM's platform configuration registers (PCRs), their digests,
//! and the extension of a PCR.
//!
//! The hashes are those of FIPS 180-4, the algorithm ids those of the TPM 2.0 Library, Part 2,
//! section 6.3, and extension is that of Part 1, section 17.2.
#![tactic(auto)]

mod bank;
mod digest;
mod hasher;

pub use bank::Bank;
pub use digest::Digest;
pub use hasher::Hasher;
