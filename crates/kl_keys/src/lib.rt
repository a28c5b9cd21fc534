//! Keys from outside: who signed a message, and who can read a secret. The trait `Keys` is what the verifier asks,
//! HMAC (RFC 2104) and the tags of agents are computed here, and `MacKeys` are keys in memory for tests.
#![tactic(auto)]

mod fault;
mod hmac;
mod keys;
mod mac_keys;
mod sealing;
mod tags;
mod threads;

pub use fault::{KeysError, KeysFault};
pub use hmac::{hmac256, hmac384};
pub use keys::Keys;
pub use kl_base::Memory;
pub use mac_keys::MacKeys;
pub use tags::{tag, tag_matches};
