//! What a history is made of.

use kl_appraise::SharedTerms;
use kl_quote::Evidence;
use kl_states::{AgentId, DropWhy, LostWhy, Nonce, Outcome, Verdict};

/// Why terms were installed.
#[derive(Clone, Copy, Debug, PartialEq, Eq)]
pub enum InstallWhy {
    /// The agent was added.
    Add,
    /// Its runtime policy was replaced.
    Replace,
    /// It was made live again under the terms that it had.
    Reactivate,
}

/// One event of a verifier. Policy generations, polls and releases are each numbered from 1.
#[derive(Drop)]
pub enum Record {
    /// Terms of an agent were installed, which begins a generation.
    Install {
        agent: AgentId,
        generation: u64,
        terms: SharedTerms,
        why: InstallWhy,
    },
    /// A poll of an agent began: its nonce, the moment in milliseconds, and the entry from which the
    /// measurement list is asked for.
    Begin {
        poll: u64,
        agent: AgentId,
        generation: u64,
        nonce: Nonce,
        at: u64,
        from: u64,
    },
    /// A poll was closed by a verdict on the evidence of its reply. `signed` is the key object's answer, and
    /// `current` says whether the generation of the poll's begin was installed and the agent live.
    Verdict {
        poll: u64,
        evidence: Evidence,
        signed: bool,
        verdict: Verdict,
        current: bool,
    },
    /// A poll was closed by the finding that the machine booted anew.
    Restart {
        poll: u64,
        evidence: Evidence,
        signed: bool,
        current: bool,
    },
    /// A poll was closed, since no evidence came back.
    Lost {
        poll: u64,
        why: LostWhy,
        current: bool,
    },
    /// A poll was closed, and counts neither for nor against its agent.
    Dropped {
        poll: u64,
        why: DropWhy,
    },
    /// The key share V of an agent was released, since this poll of it passed.
    Release {
        number: u64,
        agent: AgentId,
        generation: u64,
        poll: u64,
    },
    /// The delivery of a released share ended.
    Settled {
        number: u64,
        outcome: Outcome,
        current: bool,
    },
    /// The tenant stopped an agent.
    Stop {
        agent: AgentId,
    },
    /// An agent was removed.
    Remove {
        agent: AgentId,
    },
}
