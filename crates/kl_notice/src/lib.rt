//! Notices of agents that failed, and the outbox that holds them in order until each is delivered.
#![tactic(auto)]

mod notice;
mod outbox;

pub use kl_base::Memory;
pub use notice::{FailWhy, Notice, text};
pub use outbox::Outbox;
