//! Which boots of agents V has reached.

ghost use Rattle.std.specs.Prelude.{◌≡◌, true, OnOk, OnErr, Some};
ghost use Rattle.std.specs.BTreeMap.{Updates, IsUnchanged};
ghost use Rattle.kl_agents.specs.Reached.{is_marked, has_place, target_of, Reserves, target_cmp};

use kl_appraise::Boot;
use kl_base::Memory;
use kl_states::AgentId;
use std::collections::BTreeMap;
use std::mem::size_of;

/// A boot of an agent's machine, since the agent was added last.
#[derive(Clone, Copy, Debug, PartialEq, Eq, PartialOrd, Ord)]
pub struct Target {
    /// The agent.
    pub agent: AgentId,
    /// The generation with which it was added.
    pub added: u64,
    /// How often its TPM was reset.
    pub reset: u32,
    /// How often it was restarted since then.
    pub restart: u32,
}

// What a boot that V reached costs a map, in bytes.
const _: () = prove!(size_of::<Target>() == 88);

impl Target {
    /// A boot of an agent that was added with this generation.
    pub fn new(agent: AgentId, added: u64, boot: Boot) -> Target
        ensures { result ≡ target_of agent added boot }
    {
        Target {
            agent,
            added,
            reset: boot.reset,
            restart: boot.restart,
        }
    }
}

/// Keeps a place for the mark of a boot.
///
/// # Errors
/// `Memory` where memory runs out, and then nothing changes.
pub fn reserve_mark(reached: &mut BTreeMap<Target, bool>, target: Target) -> Result<(), Memory>
    ensures place { OnOk result (Reserves reached.old reached.new target) }
    ensures same { OnErr result (IsUnchanged reached.old reached.new) }
{
    if !reached.contains_key(&target) {
        reached.insert(target, false)?;
    }
    Ok(())
}

/// Marks a boot as reached.
pub fn mark(reached: &mut BTreeMap<Target, bool>, target: &Target)
    requires { has_place reached.old target.now ≡ true }
    ensures { Updates target_cmp reached.old reached.new target.now (Some true) }
{
    if let Some(marked) = reached.get_mut(target) {
        *marked = true;
    }
}

/// Whether a boot is reached.
pub fn is_marked(reached: &BTreeMap<Target, bool>, target: &Target) -> bool
    ensures { result ≡ is_marked reached.now target.now }
{
    match reached.get(target) {
        Some(marked) => *marked,
        None => false,
    }
}
