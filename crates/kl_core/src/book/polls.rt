//! Polls begin.

ghost use Rattle.std.specs.Prelude.{◌≡◌, ℕ, true, false, IfOk, IfErr, IfSome, IfNone, Some, None};
ghost use Rattle.kl_history.specs.Records.{is_open};
ghost use Rattle.kl_history.specs.Legal.{HasRoom, HasBytes};
ghost use Rattle.kl_core.specs.Books.{past, with_more};
ghost use Rattle.kl_core.specs.Begins.{MayPoll, RefusesBegin, BeginAnswers, begin_makes};
ghost use Rattle.kl_agents.specs.Steps.{latest_poll};

use super::{Book, POLL_BYTES, ends};
use crate::refusal::Refusal;
use kl_agents::{Entry, Opening, kept_at, note, put_one};
use kl_history::Record;
use kl_incr::Ticket;
use kl_states::{AgentId, Nonce};
use std::alloc::Global;

impl Book {
    /// The last poll of an agent, where it is open.
    fn open_latest(&self, entry: &Entry) -> Option<u64>
        ensures latest { IfSome result (λ p. latest_poll entry.now ≡ Some p) }
        ensures opened { IfSome result (λ p. is_open (past self.now) p ≡ true) }
        ensures none { IfNone result ((p : ℕ) → latest_poll entry.now ≡ Some p → is_open (past self.now) p ≡ false) }
    {
        match entry.latest {
            Some(begun) => if self.is_open(begun.poll) {
                Some(begun.poll)
            } else {
                None
            },
            None => None,
        }
    }

    /// Refuses an agent that may not be polled.
    fn check_begin(&self, agent: &AgentId) -> Result<(), Refusal>
        ensures may { IfOk result (λ _. MayPoll (past self.now) agent.now) }
        ensures room { IfOk result (λ _. HasRoom (past self.now) 2) }
        ensures bytes { IfOk result (λ _. HasBytes (past self.now) 16777216) }
        ensures err { IfErr result (λ why. RefusesBegin (past self.now) agent.now why) }
    {
        self.check_live(agent)?;
        let entry = kept_at(&self.agents, agent);
        match self.open_latest(&entry) {
            Some(poll) => return Err(Refusal::Busy(poll)),
            None => {},
        }
        match self.lacks(2, POLL_BYTES) {
            Some(why) => Err(why),
            None => Ok(()),
        }
    }

    /// Begins a poll of an agent at a moment, in milliseconds.
    ///
    /// # Errors
    /// `NoAgent`, `WrongState` where it is not live, `Busy` where a poll of its installed generation is open,
    /// `JournalRecords`, `JournalBytes` or `Memory`.
    pub fn begin(
        &mut self,
        alloc: Global,
        agent: &AgentId,
        nonce: Nonce,
        now: u64,
    ) -> Result<Ticket, Refusal>
        ensures answer { BeginAnswers agent.now nonce now result (past self.old) }
        ensures history { self.new ≡ with_more (begin_makes now result (past self.old)) self.old }
    {
        self.check_begin(agent)?;
        let entry = kept_at(&self.agents, agent);
        let terms = self.share_terms(entry.place)?;
        match self.records.reserve(ends(&self.polls, &self.releases) + 2) {
            Ok(()) => {},
            Err(_) => return Err(Refusal::Memory),
        }
        match self
            .outbox
            .reserve(alloc, ends(&self.polls, &self.releases) + 1)
        {
            Ok(()) => {},
            Err(_) => return Err(Refusal::Memory),
        }
        let poll = self.begun + 1;
        let opening = Opening {
            agent: *agent,
            generation: entry.generation,
            nonce,
            place: entry.place,
        };
        match put_one(&mut self.polls, poll, opening) {
            Ok(()) => {},
            Err(_) => return Err(Refusal::Memory),
        }
        self.begun = poll;
        note(&mut self.agents, agent, entry.polled(poll, now));
        self.records.push_reserved(Record::Begin {
            poll,
            agent: *agent,
            generation: entry.generation,
            nonce,
            at: now,
            from: 0,
        });
        Ok(Ticket::new(poll, *agent, entry.generation, nonce, terms, None))
    }
}
