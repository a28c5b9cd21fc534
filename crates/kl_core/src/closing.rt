//! What closes a poll, and what follows of it.

ghost use Rattle.std.specs.Prelude.{◌≡◌, ◌≤◌, ◌<◌, IfSome};
ghost use Rattle.std.specs.Option.{option_map};
ghost use Rattle.kl_quote.specs.Size.{total_bytes};
ghost use Rattle.kl_core.specs.Closes.{closed_by, record_by};
ghost use Rattle.kl_core.specs.Inner.Closing.{close_as, close_why, close_record, close_weight, close_boot, after_close};

use crate::closed::ClosedAs;
use kl_agents::Entry;
use kl_appraise::Boot;
use kl_history::Record;
use kl_incr::{Kept, Outcome as Finding};
use kl_notice::FailWhy;
use kl_quote::Evidence;
use kl_states::{DropWhy, LostWhy};

/// What closes a poll.
#[derive(Drop)]
pub enum Close {
    /// What the appraisal of its evidence found, and what is kept of the list that it accepts.
    Found {
        evidence: Evidence,
        signed: bool,
        finding: Finding,
        next: Option<Kept>,
    },
    /// No evidence came back.
    Lost(LostWhy),
    /// It counts neither for nor against its agent.
    Dropped(DropWhy),
}

impl Close {
    /// By what it closes a poll, in short.
    pub fn as_what(&self) -> ClosedAs
        ensures { result ≡ close_as self.now }
    {
        match self {
            Close::Found { finding, .. } => closed_by(*finding),
            Close::Lost(why) => ClosedAs::Lost(*why),
            Close::Dropped(why) => ClosedAs::Dropped(*why),
        }
    }

    /// Why the agent fails, where it fails by this.
    pub fn why(&self) -> Option<FailWhy>
        ensures { result ≡ close_why self.now }
    {
        match self {
            Close::Found {
                finding: Finding::Verdict(verdict),
                ..
            } => Some(FailWhy::Verdict(*verdict)),
            Close::Lost(_) => Some(FailWhy::Losses),
            _ => None,
        }
    }

    /// How many bytes its record weighs.
    pub fn weight(&self) -> u64
        ensures bytes { result ≡ close_weight self.now }
        ensures most { result ≤ 16777216 }
    {
        match self {
            Close::Found { evidence, .. } => weight_of(evidence),
            Close::Lost(_) => 0,
            Close::Dropped(_) => 0,
        }
    }

    /// The boot that the quote of a pass signs.
    pub fn boot(&self) -> Option<Boot>
        ensures { result ≡ close_boot self.now }
    {
        match self {
            Close::Found {
                next: Some(kept),
                ..
            } => Some(kept.boot),
            _ => None,
        }
    }

    /// What is kept of an agent once it closed a poll that is current, whose record stands at this place; V has reached
    /// the boot that a pass signs, or not.
    pub fn entry_after(&self, poll: u64, place: usize, reached: bool, entry: Entry) -> Entry
        requires { entry.losses < 5 }
        ensures { result ≡ after_close poll place reached self.now entry }
    {
        match self {
            Close::Found { finding, next, .. } => {
                entry.found(poll, place, *finding, next, reached)
            },
            Close::Lost(_) => entry.lost(),
            Close::Dropped(_) => entry,
        }
    }

    /// The record of a poll that it closes.
    pub fn into_record(self, poll: u64, current: bool) -> Record
        ensures { result ≡ close_record poll self current }
    {
        match self {
            Close::Found {
                evidence,
                signed,
                finding,
                next: _,
            } => record_by(poll, evidence, signed, finding, current),
            Close::Lost(why) => Record::Lost { poll, why, current },
            Close::Dropped(why) => Record::Dropped { poll, why },
        }
    }
}

/// By what a finding closes a poll.
fn closed_by(finding: Finding) -> ClosedAs
    ensures { result ≡ closed_by finding }
{
    match finding {
        Finding::Verdict(verdict) => ClosedAs::Verdict(verdict),
        Finding::Restart => ClosedAs::Restart,
    }
}

/// The record of a poll that was closed by a finding.
fn record_by(poll: u64, evidence: Evidence, signed: bool, finding: Finding, current: bool) -> Record
    ensures { result ≡ record_by poll evidence signed finding current }
{
    match finding {
        Finding::Verdict(verdict) => Record::Verdict {
            poll,
            evidence,
            signed,
            verdict,
            current,
        },
        Finding::Restart => Record::Restart {
            poll,
            evidence,
            signed,
            current,
        },
    }
}

/// How many bytes evidence weighs.
fn weight_of(evidence: &Evidence) -> u64
    ensures bytes { result ≡ total_bytes evidence.now.bank evidence.now.public evidence.now.quote evidence.now.list }
    ensures most { result ≤ 16777216 }
{
    (evidence.bank.len()
        + evidence.public.len()
        + evidence.quote.len()
        + evidence.list.len()) as u64
}

/// What is kept of an agent after a close, where that is current.
pub fn closed_if(
    entry: Option<Entry>,
    poll: u64,
    place: usize,
    reached: bool,
    by: &Close,
) -> Option<Entry>
    requires { IfSome entry (λ e. e.losses < 5) }
    ensures { result ≡ option_map (after_close poll place reached by.now) entry }
{
    match entry {
        Some(entry) => Some(by.entry_after(poll, place, reached, entry)),
        None => None,
    }
}
