//! Agents are installed.

ghost use Rattle.std.specs.Prelude.{◌≡◌, IfOk, IfErr, IfSome, IfNone, IsSome, Some, length};
ghost use Rattle.std.specs.Option.{option_map};
ghost use Rattle.kl_history.specs.declared.record.InstallWhy.TheVariants.{Add};
ghost use Rattle.kl_core.specs.Books.{past, with_more};
ghost use Rattle.kl_history.specs.Records.{own};
ghost use Rattle.kl_history.specs.LookBacks.{installed};
ghost use Rattle.kl_history.specs.Legal.{MayInstall, HasRoom, HasBytes};
ghost use Rattle.kl_core.specs.Installs.{RefusesAdd, Adds, add_makes, RefusesReactivate, Reactivates, reactivate_makes, with_policy, RefusesReplace, Replaces, replace_makes};
ghost use Rattle.kl_core.specs.Inner.Keeping.{terms_at};

use super::{Book, MOST_AGENTS, ends};
use crate::refusal::Refusal;
use kl_agents::{kept_at, put_fresh, renew, take_out};
use kl_appraise::{SharedTerms, Terms};
use kl_history::{InstallWhy, Record};
use kl_policy::Policy;
use kl_states::AgentId;
use std::alloc::Global;

impl Book {
    /// Why an agent can't be added, None where it can.
    fn bars_add(&self, agent: &AgentId, terms: &Terms) -> Option<Refusal>
        ensures some { IfSome result (λ why. RefusesAdd (past self.now) agent.now terms.now why) }
        ensures may { IfNone result (MayInstall (past self.now) agent.now terms.now Add) }
        ensures room { IfNone result (HasRoom (past self.now) 1) }
        ensures bytes { IfNone result (HasBytes (past self.now) (length terms.now.policy.source)) }
    {
        if self.has(agent) {
            return Some(Refusal::Exists);
        }
        if self.agents_len() >= MOST_AGENTS {
            return Some(Refusal::AgentsFull);
        }
        self.lacks(1, terms.policy().source().len() as u64)
    }

    /// Installs an agent, and answers its generation.
    ///
    /// # Errors
    /// `Exists`, `AgentsFull`, `JournalRecords`, `JournalBytes` or `Memory`, with the terms.
    pub fn add(
        &mut self,
        alloc: Global,
        agent: AgentId,
        terms: Terms,
    ) -> Result<u64, (Refusal, Terms)>
        ensures answer { Adds agent terms result (past self.old) }
        ensures history { self.new ≡ with_more (add_makes agent terms result (past self.old)) self.old }
    {
        match self.bars_add(&agent, &terms) {
            Some(why) => return Err((why, terms)),
            None => {},
        }
        match self.records.reserve(ends(&self.polls, &self.releases) + 1) {
            Ok(()) => {},
            Err(_) => return Err((Refusal::Memory, terms)),
        }
        let generation = self.drawn + 1;
        let weight = terms.policy().source().len() as u64;
        let (place, has_v) = (self.records.len(), terms.v().is_some());
        match put_fresh(&mut self.agents, agent, generation, place, has_v) {
            Ok(()) => {},
            Err(_) => return Err((Refusal::Memory, terms)),
        }
        let terms = match SharedTerms::new(alloc, terms) {
            Ok(terms) => terms,
            Err(terms) => {
                take_out(&mut self.agents, &agent);
                return Err((Refusal::Memory, terms));
            },
        };
        self.drawn = generation;
        self.weight += weight;
        self.records.push_reserved(Record::Install {
            agent,
            generation,
            terms,
            why: InstallWhy::Add,
        });
        Ok(generation)
    }

    /// Refuses an agent that may not be installed once more under the terms that it has.
    fn check_reactivate(&self, agent: &AgentId) -> Result<(), Refusal>
        ensures installed { IfOk result (λ _. IsSome (installed (own (past self.now) agent.now))) }
        ensures room { IfOk result (λ _. HasRoom (past self.now) 1) }
        ensures err { IfErr result (λ why. RefusesReactivate (past self.now) agent.now why) }
    {
        if !self.has(agent) {
            Err(Refusal::NoAgent)
        } else if self.has_room(1) {
            Ok(())
        } else {
            Err(Refusal::JournalRecords)
        }
    }

    /// Makes an agent live again under the terms that it has, and answers the generation.
    ///
    /// # Errors
    /// `NoAgent`, `JournalRecords` or `Memory`.
    pub fn reactivate(&mut self, _alloc: Global, agent: &AgentId) -> Result<u64, Refusal>
        ensures answer { Reactivates agent.now result (past self.old) }
        ensures history { self.new ≡ with_more (reactivate_makes agent.now result (past self.old)) self.old }
    {
        self.check_reactivate(agent)?;
        let entry = kept_at(&self.agents, agent);
        let terms = self.share_terms(entry.place)?;
        match self.records.reserve(ends(&self.polls, &self.releases) + 1) {
            Ok(()) => {},
            Err(_) => return Err(Refusal::Memory),
        }
        let generation = self.drawn + 1;
        let place = self.records.len();
        renew(&mut self.agents, agent, &entry, generation, place);
        self.drawn = generation;
        self.records.push_reserved(Record::Install {
            agent: *agent,
            generation,
            terms,
            why: InstallWhy::Reactivate,
        });
        Ok(generation)
    }

    /// Refuses an agent whose policy may not be replaced.
    fn check_replace(&self, agent: &AgentId, policy: &Policy) -> Result<(), Refusal>
        ensures installed { IfOk result (λ _. IsSome (installed (own (past self.now) agent.now))) }
        ensures room { IfOk result (λ _. HasRoom (past self.now) 1) }
        ensures bytes { IfOk result (λ _. HasBytes (past self.now) (length policy.now.source)) }
        ensures err { IfErr result (λ why. RefusesReplace (past self.now) agent.now policy.now why) }
    {
        if !self.has(agent) {
            return Err(Refusal::NoAgent);
        }
        match self.lacks(1, policy.source().len() as u64) {
            Some(why) => Err(why),
            None => Ok(()),
        }
    }

    /// The terms that the record at a place installed, with another policy.
    fn changed_terms(
        &self,
        alloc: Global,
        place: usize,
        policy: Policy,
    ) -> Result<SharedTerms, Policy>
        requires { IsSome (terms_at self.now.history place) }
        ensures ok { IfOk result (λ terms. option_map (with_policy policy) (terms_at self.now.history place) ≡ Some terms) }
        ensures err { IfErr result (λ back. back ≡ policy) }
    {
        let terms = self.terms_at(place).terms().with_policy(alloc, policy)?;
        match SharedTerms::new(alloc, terms) {
            Ok(terms) => Ok(terms),
            Err(terms) => Err(terms.into_policy()),
        }
    }

    /// Installs an agent under a new runtime policy, and answers the generation. The other terms stay.
    ///
    /// # Errors
    /// `NoAgent`, `JournalRecords`, `JournalBytes` or `Memory`, with the policy.
    pub fn replace(
        &mut self,
        alloc: Global,
        agent: &AgentId,
        policy: Policy,
    ) -> Result<u64, (Refusal, Policy)>
        ensures answer { Replaces agent.now policy result (past self.old) }
        ensures history { self.new ≡ with_more (replace_makes agent.now policy result (past self.old)) self.old }
    {
        match self.check_replace(agent, &policy) {
            Ok(()) => {},
            Err(why) => return Err((why, policy)),
        }
        let entry = kept_at(&self.agents, agent);
        match self.records.reserve(ends(&self.polls, &self.releases) + 1) {
            Ok(()) => {},
            Err(_) => return Err((Refusal::Memory, policy)),
        }
        let weight = policy.source().len() as u64;
        let terms = match self.changed_terms(alloc, entry.place, policy) {
            Ok(terms) => terms,
            Err(policy) => return Err((Refusal::Memory, policy)),
        };
        let generation = self.drawn + 1;
        let place = self.records.len();
        renew(&mut self.agents, agent, &entry, generation, place);
        self.drawn = generation;
        self.weight += weight;
        self.records.push_reserved(Record::Install {
            agent: *agent,
            generation,
            terms,
            why: InstallWhy::Replace,
        });
        Ok(generation)
    }
}
