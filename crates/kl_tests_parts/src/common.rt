//! What several modules use.

use kl_states::AgentId;
use std::test::Fail;

/// The agent of this name.
pub fn agent_of(name: &str) -> Result<AgentId, Fail> {
    match AgentId::from_bytes(name.as_bytes()) {
        Some(agent) => Ok(agent),
        None => Err(Fail::from("it is no name of an agent")),
    }
}

/// Is compiled where threads may share the value.
pub fn shared<T: Sync + Send>(_value: &T) {}
