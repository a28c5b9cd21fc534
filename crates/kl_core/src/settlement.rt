//! How a release was settled.

use kl_states::{Op, Outcome};

/// How a release was settled.
#[derive(Clone, Copy, Debug, PartialEq, Eq)]
pub struct Settlement {
    /// The number of the release.
    pub number: u64,
    /// How the delivery of its share ended.
    pub outcome: Outcome,
    /// Whether the generation of its release was installed and the agent live.
    pub current: bool,
    /// The state of the agent after it, None where it is not installed.
    pub op: Option<Op>,
}
