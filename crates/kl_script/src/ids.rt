//! Names of agents, and nonces.

ghost use Rattle.std.specs.Prelude.{◌≡◌, ℕ, List, IfOk, OnErr};
ghost use Rattle.kl_states.specs.Names.{IsNonce};
ghost use Rattle.kl_script.specs.Commands.{SpellsAgent};

use crate::fault::CommandFault;
use kl_states::{AgentId, Nonce};

/// An agent's name, and nothing else.
pub(crate) fn read_agent(written: &str) -> Result<AgentId, CommandFault>
    ensures found { IfOk result (λ agent. SpellsAgent written.now agent) }
    ensures none { OnErr result ((agent : List ℕ) → ¬ (SpellsAgent written.now agent)) }
{
    AgentId::from_bytes(written.as_bytes()).ok_or(CommandFault::NoCommand)
}

/// A nonce, and nothing else.
pub(crate) fn read_nonce(written: &str) -> Result<Nonce, CommandFault>
    ensures found { IfOk result (λ nonce. (nonce ≡ written.now) × IsNonce written.now) }
    ensures none { OnErr result (¬ (IsNonce written.now)) }
{
    Nonce::from_bytes(written.as_bytes()).ok_or(CommandFault::NoCommand)
}
