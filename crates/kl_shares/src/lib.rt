//! A key in two shares: U, which the agent gets from its tenant, and V, which the verifier releases once the agent
//! passed. Neither alone says anything of the key, and the two together are the key.
#![tactic(auto)]

mod shares;

pub use shares::{join, opens, split, split_keys};
