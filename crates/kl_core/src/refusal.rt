//! Why a desk did nothing.

use kl_states::Op;
use std::fmt;

/// Why a desk did nothing. The first that applies is answered, in the order in which the call lists them; want
/// of memory may be answered before the others were looked at.
#[derive(Clone, Copy, Debug, PartialEq, Eq)]
pub enum Refusal {
    /// No such agent is installed.
    NoAgent,
    /// The agent is installed already.
    Exists,
    /// 1,024 agents are installed.
    AgentsFull,
    /// The agent is in this state, in which the call is not lawful.
    WrongState(Op),
    /// This poll of the agent is open, and was begun under the installed generation; or this release of it is not settled,
    /// and was made since the agent was added last.
    Busy(u64),
    /// The poll of this number is not open, or the ticket is not the one that its begin gave.
    NoPoll(u64),
    /// The release of this number is not open, or the share is not the one that it gave.
    NoRelease(u64),
    /// The journal has no room for a record more: it takes 1,000,000, the end of each open poll and release among
    /// them.
    JournalRecords,
    /// The journal has no room for more bytes: it takes 1 GiB of evidence and policies, 16 MiB for each open poll
    /// among them.
    JournalBytes,
    /// Memory ran out.
    Memory,
}

impl fmt::Display for Refusal {
    ghost use Rattle.std.specs.Prelude.{Some};
    ghost use Rattle.kl_core.specs.Texts.{refusal_text};

    ghost output = { λ why. Some (refusal_text why) };

    fn fmt<W: fmt::Write>(&self, f: &mut fmt::Formatter<W>) -> fmt::Result {
        match self {
            Refusal::NoAgent => f.write_str("noagent"),
            Refusal::Exists => f.write_str("exists"),
            Refusal::AgentsFull => f.write_str("agentsfull"),
            Refusal::WrongState(op) => write!(f, "state {op}"),
            Refusal::Busy(number) => write!(f, "busy {number}"),
            Refusal::NoPoll(number) => write!(f, "nopoll {number}"),
            Refusal::NoRelease(number) => write!(f, "norelease {number}"),
            Refusal::JournalRecords => f.write_str("journalfull records"),
            Refusal::JournalBytes => f.write_str("journalfull bytes"),
            Refusal::Memory => f.write_str("memory"),
        }
    }
}
