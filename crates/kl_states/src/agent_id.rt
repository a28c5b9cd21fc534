ghost use Rattle.std.specs.Prelude.{◌≡◌, ◌↔◌, ◌==◌, IsSome, IfSome, Some};
ghost use Rattle.std.proofs.Common.{rules};
ghost use Rattle.std.specs.Cmp.{partial_order_from_own_ties};
ghost use Rattle.std.specs.Cmp.Rules.{comparing};
ghost use Rattle.std.specs.Ordering.{nat_cmp, as_partial_cmp};
ghost use Rattle.std.specs.Cmp.Lexicographic.{pointwise, slice_cmp};
ghost use Rattle.kl_states.specs.Names.{is_agent_id_byte, IsAgentId};

use crate::name::{MAX_LEN, Name};
use std::cmp::Ordering;
use std::fmt;
use std::marker::Model;

/// The name of an agent: 1 to 64 bytes, each an ASCII letter, an ASCII digit, `-`, `_` or `.`.
#[derive(Clone, Copy, Debug)]
pub struct AgentId {
    name: Name,
}

impl Model for AgentId {
    ghost use Rattle.std.specs.Prelude.{ℕ, List};
    ghost use Rattle.kl_states.specs.Names.{IsAgentId};

    ghost Value = { List ℕ };

    ghost view = { λ id. id.name };

    ghost invariant = { λ id. IsAgentId id.name };

    ghost inverse = { λ bytes. record { name = bytes } };
}

fn is_allowed(byte: u8) -> bool
    ensures { result ≡ is_agent_id_byte byte }
{
    byte.is_ascii_alphanumeric() || byte == b'-' || byte == b'_' || byte == b'.'
}

impl AgentId {
    /// The agent that the bytes name, or None where they name none.
    pub fn from_bytes(bytes: &[u8]) -> Option<AgentId>
        ensures found { IsSome result ↔ IsAgentId bytes.now }
        ensures value { IfSome result (λ id. id ≡ bytes.now) }
    {
        if bytes.is_empty()
            || bytes.len() > MAX_LEN
            || !bytes.iter().all(|byte| is_allowed(*byte))
        {
            return None;
        }
        Some(AgentId {
            name: Name::new(bytes),
        })
    }

    /// The name as text.
    pub fn as_str(&self) -> &str
        ensures value { result.now ≡ self.now }
        ensures form { IsAgentId self.now }
    {
        self.name.as_str()
    }
}

impl fmt::Display for AgentId {
    ghost output = { λ id. Some id };

    fn fmt<W: fmt::Write>(&self, f: &mut fmt::Formatter<W>) -> fmt::Result {
        f.write_str(self.as_str())
    }
}

impl PartialEq for AgentId {
    ghost eq = { pointwise ◌==◌ };

    ghost laws = { Prim.search (comparing, rules) };

    fn eq(&self, other: &AgentId) -> bool {
        self.as_str() == other.as_str()
    }
}

impl Eq for AgentId {
    ghost laws = { Prim.search (comparing, rules) };
}

impl Ord for AgentId {
    ghost cmp = { slice_cmp nat_cmp };

    ghost total = { Prim.search (comparing, rules) };

    ghost matches_partial_cmp = { Prim.search (comparing, rules) };

    ghost matches_eq = { Prim.search (comparing, rules) };

    fn cmp(&self, other: &AgentId) -> Ordering {
        self.as_str().cmp(other.as_str())
    }
}

impl PartialOrd for AgentId {
    ghost partial_cmp = { as_partial_cmp (slice_cmp nat_cmp) };

    ghost laws = { partial_order_from_own_ties (Prim.search (comparing, rules)) (Prim.search (comparing, rules)) };

    fn partial_cmp(&self, other: &AgentId) -> Option<Ordering> {
        Some(self.cmp(other))
    }
}
