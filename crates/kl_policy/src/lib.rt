//! Runtime policies: which entries of an IMA measurement list are allowed.
//!
//! A policy names, for each path, the digests that a file there may have. [`read_flat`] reads one from
//! a flat allowlist, [`read_json`] one from Keylime's JSON, and [`Policy::first_bad`] finds the first entry of a list that it does not allow.
#![tactic(auto)]

mod content;
mod fault;
mod flat;
mod json_digests;
mod json_listing;
mod json_members;
mod json_split;
mod json_text;
mod judge;
mod limits;
mod line;
mod policy;
mod reading;
mod threads;
mod unique;
mod why;

pub use fault::{Limit, PolicyFault};
pub use flat::read_flat;
pub use json_text::read_json;
pub use judge::Judge;
pub use kl_base::Memory;
pub use kl_states::PolicyKind;
pub use policy::Policy;
pub use reading::read_policy;
pub use unique::one_reading;
pub use why::Why;
