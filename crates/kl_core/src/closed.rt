//! How a poll was closed.

use kl_states::{AgentId, DropWhy, LostWhy, Op, Verdict};

/// By what a poll was closed.
#[derive(Clone, Copy, Debug, PartialEq, Eq)]
pub enum ClosedAs {
    /// A verdict.
    Verdict(Verdict),
    /// The finding that the machine booted anew.
    Restart,
    /// No evidence came back.
    Lost(LostWhy),
    /// It was dropped.
    Dropped(DropWhy),
}

/// How a poll was closed.
#[derive(Clone, Copy, Debug, PartialEq, Eq)]
pub struct Closed {
    /// The number of the poll.
    pub poll: u64,
    /// Whose poll it was.
    pub agent: AgentId,
    /// By what it was closed.
    pub as_what: ClosedAs,
    /// Whether the generation of its begin was installed and the agent live.
    pub current: bool,
    /// The state of the agent after the close, None where it is not installed.
    pub op: Option<Op>,
}
