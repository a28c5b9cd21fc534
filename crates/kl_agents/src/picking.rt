//! Which agent is polled next.

ghost use Rattle.std.specs.Prelude.{◌≡◌, ◌&&◌};
ghost use Rattle.std.specs.Option.{option_map};
ghost use Rattle.std.specs.List.Sorted.{IsStrictlySortedBy};
ghost use Rattle.std.specs.Map.{keys_of};
ghost use Rattle.std.specs.Ordering.{nat_cmp};
ghost use Rattle.std.specs.Cmp.Lexicographic.{slice_cmp};
ghost use Rattle.kl_agents.specs.declared.picking.Due.{Due};
ghost use Rattle.kl_agents.specs.Picking.{due_of, waits, is_free, is_sooner, first_due};

use crate::entry::{Entry, Opening};
use kl_states::AgentId;
use std::collections::BTreeMap;

/// An agent that may be polled, and from when on.
#[derive(Clone, Copy)]
pub struct Due {
    /// The agent.
    pub agent: AgentId,
    /// The moment, in milliseconds.
    pub since: u64,
}

/// Whether the last poll of an agent is not open.
fn is_free(openings: &BTreeMap<u64, Opening>, entry: &Entry) -> bool
    ensures { result ≡ is_free openings.now entry.now }
{
    match entry.latest {
        Some(begun) => !openings.contains_key(&begun.poll),
        None => true,
    }
}

/// Whether the moment is earlier than that of the one that is due.
fn is_sooner(since: u64, first: &Option<Due>) -> bool
    ensures { result ≡ is_sooner since first.now }
{
    match first {
        Some(due) => since < due.since,
        None => true,
    }
}

/// Whether an agent waits at this moment, and longer than the first. Whether its poll is open is looked up last.
fn precedes(openings: &BTreeMap<u64, Opening>, now: u64, entry: &Entry, first: &Option<Due>) -> bool
    ensures { result ≡ (is_sooner (due_of entry.now) first.now && waits openings.now now entry.now) }
{
    let since = entry.due();
    is_sooner(since, first) && entry.end.is_none() && since <= now && is_free(openings, entry)
}

/// The agent that is polled next at this moment: of those that wait, the one that is due first, and of these the first by name.
#[tactic(auto, using(crate::proofs::FirstDue::first_changes, crate::proofs::FirstDue::first_stays, crate::proofs::FirstDue::none_sooner, crate::proofs::FirstDue::none_ahead))]
pub fn first_due(
    agents: &BTreeMap<AgentId, Entry>,
    openings: &BTreeMap<u64, Opening>,
    now: u64,
) -> Option<AgentId>
    ensures first { result ≡ option_map (λ (due : Due). due.agent) (first_due openings.now now agents.now.entries) }
    ensures ordered { IsStrictlySortedBy (slice_cmp nat_cmp) (keys_of agents.now.entries) }
{
    let mut first: Option<Due> = None;
    for (agent, entry) in agents.iter() {
        if precedes(openings, now, entry, &first) {
            let since = entry.due();
            // An agent that was not polled since its install is due since moment 0, and none is due sooner.
            if since == 0 {
                return Some(*agent);
            }
            first = Some(Due {
                agent: *agent,
                since,
            });
        }
    }
    match first {
        Some(due) => Some(due.agent),
        None => None,
    }
}
