//! Agents are stopped and removed.

ghost use Rattle.std.specs.Prelude.{◌≡◌};
ghost use Rattle.kl_core.specs.Books.{past, with_more};
ghost use Rattle.kl_core.specs.Endings.{Stops, stop_makes, Removes, remove_makes};

use super::{Book, ends};
use crate::refusal::Refusal;
use kl_agents::{kept_at, note, take_out};
use kl_history::Record;
use kl_states::AgentId;
use std::alloc::Global;

impl Book {
    /// Stops an agent.
    ///
    /// # Errors
    /// `NoAgent`, `WrongState` where it is not live, `JournalRecords` or `Memory`.
    pub fn stop(&mut self, _alloc: Global, agent: &AgentId) -> Result<(), Refusal>
        ensures answer { Stops agent.now result (past self.old) }
        ensures history { self.new ≡ with_more (stop_makes agent.now result (past self.old)) self.old }
    {
        self.check_live(agent)?;
        if !self.has_room(1) {
            return Err(Refusal::JournalRecords);
        }
        match self.records.reserve(ends(&self.polls, &self.releases) + 1) {
            Ok(()) => {},
            Err(_) => return Err(Refusal::Memory),
        }
        let entry = kept_at(&self.agents, agent);
        note(&mut self.agents, agent, entry.stopped());
        self.records.push_reserved(Record::Stop { agent: *agent });
        Ok(())
    }

    /// Removes an agent. Its open polls stay open.
    ///
    /// # Errors
    /// `NoAgent`, `JournalRecords` or `Memory`.
    pub fn remove(&mut self, _alloc: Global, agent: &AgentId) -> Result<(), Refusal>
        ensures answer { Removes agent.now result (past self.old) }
        ensures history { self.new ≡ with_more (remove_makes agent.now result (past self.old)) self.old }
    {
        if !self.has(agent) {
            return Err(Refusal::NoAgent);
        }
        if !self.has_room(1) {
            return Err(Refusal::JournalRecords);
        }
        match self.records.reserve(ends(&self.polls, &self.releases) + 1) {
            Ok(()) => {},
            Err(_) => return Err(Refusal::Memory),
        }
        take_out(&mut self.agents, agent);
        self.records.push_reserved(Record::Remove { agent: *agent });
        Ok(())
    }
}
