//! What is kept of installed agents, changed at one of them.

ghost use Rattle.std.specs.Prelude.{◌≡◌, ◌+◌, Some, None, IsSome, IfSome, OnOk, OnErr};
ghost use Rattle.std.specs.Option.{option_map};
ghost use Rattle.std.specs.Ordering.{nat_cmp};
ghost use Rattle.std.specs.Cmp.Lexicographic.{slice_cmp};
ghost use Rattle.std.specs.BTreeMap.{get, btree_map_len, Updates, IsUnchanged};
ghost use Rattle.kl_agents.specs.Steps.{fresh, renewed, op_of, NotedIf};
ghost use Rattle.kl_agents.specs.Settling.{only_if};

use crate::entry::Entry;
use kl_base::Memory;
use kl_states::{AgentId, Op};
use std::collections::BTreeMap;

/// Keeps an agent that is not kept yet, which a record at this place installs.
///
/// # Errors
/// `Memory` where memory runs out, and then nothing changes.
pub fn put_fresh(
    agents: &mut BTreeMap<AgentId, Entry>,
    agent: AgentId,
    generation: u64,
    place: usize,
    has_v: bool,
) -> Result<(), Memory>
    requires { get (slice_cmp nat_cmp) agents.old agent ≡ None }
    ensures updates { OnOk result (Updates (slice_cmp nat_cmp) agents.old agents.new agent (Some (fresh generation place has_v))) }
    ensures len { OnOk result (btree_map_len agents.new ≡ btree_map_len agents.old + 1) }
    ensures same { OnErr result (IsUnchanged agents.old agents.new) }
{
    agents.insert(agent, Entry::fresh(generation, place, has_v))?;
    Ok(())
}

/// What is kept of an agent, None where nothing is.
pub fn kept(agents: &BTreeMap<AgentId, Entry>, agent: &AgentId) -> Option<Entry>
    ensures { result ≡ get (slice_cmp nat_cmp) agents.now agent.now }
{
    match agents.get(agent) {
        Some(entry) => Some(*entry),
        None => None,
    }
}

/// What is kept of an agent that is kept.
pub fn kept_at(agents: &BTreeMap<AgentId, Entry>, agent: &AgentId) -> Entry
    requires { IsSome (get (slice_cmp nat_cmp) agents.now agent.now) }
    ensures { get (slice_cmp nat_cmp) agents.now agent.now ≡ Some result }
{
    match kept(agents, agent) {
        Some(entry) => entry,
        None => unreachable!(),
    }
}

/// What is kept of an agent, where this is so.
pub fn kept_if(agents: &BTreeMap<AgentId, Entry>, agent: &AgentId, holds: bool) -> Option<Entry>
    ensures { result ≡ only_if holds (get (slice_cmp nat_cmp) agents.now agent.now) }
{
    if holds { kept(agents, agent) } else { None }
}

/// Keeps an agent no longer.
pub fn take_out(agents: &mut BTreeMap<AgentId, Entry>, agent: &AgentId)
    requires { IsSome (get (slice_cmp nat_cmp) agents.old agent.now) }
    ensures updates { Updates (slice_cmp nat_cmp) agents.old agents.new agent.now None }
    ensures len { btree_map_len agents.new + 1 ≡ btree_map_len agents.old }
{
    let _gone = agents.remove(agent);
}

/// Keeps this of an agent that is kept.
pub fn note(agents: &mut BTreeMap<AgentId, Entry>, agent: &AgentId, entry: Entry)
    requires { IsSome (get (slice_cmp nat_cmp) agents.old agent.now) }
    ensures updates { Updates (slice_cmp nat_cmp) agents.old agents.new agent.now (Some entry) }
    ensures len { btree_map_len agents.new ≡ btree_map_len agents.old }
{
    if let Some(kept) = agents.get_mut(agent) {
        *kept = entry;
    }
}

/// Keeps of an agent of which this is kept what a record at this place installs.
pub fn renew(
    agents: &mut BTreeMap<AgentId, Entry>,
    agent: &AgentId,
    entry: &Entry,
    generation: u64,
    place: usize,
)
    requires { get (slice_cmp nat_cmp) agents.old agent.now ≡ Some entry.now }
    ensures updates { Updates (slice_cmp nat_cmp) agents.old agents.new agent.now (Some (renewed generation place entry.now)) }
    ensures len { btree_map_len agents.new ≡ btree_map_len agents.old }
{
    note(agents, agent, entry.renewed(generation, place));
}

/// Keeps this of an agent that is kept, where there is something new.
pub fn note_if(agents: &mut BTreeMap<AgentId, Entry>, agent: &AgentId, entry: Option<Entry>)
    requires { IfSome entry (λ _. IsSome (get (slice_cmp nat_cmp) agents.old agent.now)) }
    ensures noted { NotedIf agents.old agents.new agent.now entry }
    ensures len { btree_map_len agents.new ≡ btree_map_len agents.old }
{
    match entry {
        Some(entry) => note(agents, agent, entry),
        None => {},
    }
}

/// The state of an agent, None where it is not kept.
pub fn op_now(agents: &BTreeMap<AgentId, Entry>, agent: &AgentId) -> Option<Op>
    ensures { result ≡ option_map op_of (get (slice_cmp nat_cmp) agents.now agent.now) }
{
    match agents.get(agent) {
        Some(entry) => Some(entry.op()),
        None => None,
    }
}
