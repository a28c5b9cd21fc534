//! A book is a desk that makes every record of its history.

ghost use Rattle.kl_core.specs.Whole.{all_told};

use crate::book::Book;
use crate::closed::Closed;
use crate::desk::Desk;
use crate::refusal::Refusal;
use crate::settlement::Settlement;
use crate::share::Share;
use kl_appraise::Terms;
use kl_incr::{Appraised, Ticket};
use kl_notice::Notice;
use kl_policy::Policy;
use kl_states::{AgentId, DropWhy, LostWhy, Nonce, Outcome, State};
use std::alloc::Global;

impl Desk for Book {
    ghost told = { all_told };

    fn add(
        &mut self,
        alloc: Global,
        agent: AgentId,
        terms: Terms,
    ) -> Result<u64, (Refusal, Terms)> {
        let answer = Book::add(self, alloc, agent, terms);
        let _len = self.len();
        answer
    }

    fn replace(
        &mut self,
        alloc: Global,
        agent: &AgentId,
        policy: Policy,
    ) -> Result<u64, (Refusal, Policy)> {
        let answer = Book::replace(self, alloc, agent, policy);
        let _len = self.len();
        answer
    }

    fn reactivate(&mut self, alloc: Global, agent: &AgentId) -> Result<u64, Refusal> {
        let answer = Book::reactivate(self, alloc, agent);
        let _len = self.len();
        answer
    }

    fn stop(&mut self, alloc: Global, agent: &AgentId) -> Result<(), Refusal> {
        let answer = Book::stop(self, alloc, agent);
        let _len = self.len();
        answer
    }

    fn remove(&mut self, alloc: Global, agent: &AgentId) -> Result<(), Refusal> {
        let answer = Book::remove(self, alloc, agent);
        let _len = self.len();
        answer
    }

    fn begin(
        &mut self,
        alloc: Global,
        agent: &AgentId,
        nonce: Nonce,
        now: u64,
    ) -> Result<Ticket, Refusal> {
        let answer = Book::begin(self, alloc, agent, nonce, now);
        let _len = self.len();
        answer
    }

    fn finish(&mut self, done: Appraised) -> Result<Closed, (Refusal, Appraised)> {
        let answer = Book::finish(self, done);
        let _len = self.len();
        answer
    }

    fn lose(&mut self, ticket: Ticket, why: LostWhy) -> Result<Closed, (Refusal, Ticket)> {
        let answer = Book::lose(self, ticket, why);
        let _len = self.len();
        answer
    }

    fn drop_poll(&mut self, ticket: Ticket, why: DropWhy) -> Result<Closed, (Refusal, Ticket)> {
        let answer = Book::drop_poll(self, ticket, why);
        let _len = self.len();
        answer
    }

    fn finish_own(&mut self, done: Appraised) -> Result<Closed, (Refusal, Appraised)> {
        let answer = Book::finish_own(self, done);
        let _len = self.len();
        answer
    }

    fn lose_own(&mut self, ticket: Ticket, why: LostWhy) -> Result<Closed, (Refusal, Ticket)> {
        let answer = Book::lose_own(self, ticket, why);
        let _len = self.len();
        answer
    }

    fn drop_own(&mut self, ticket: Ticket, why: DropWhy) -> Result<Closed, (Refusal, Ticket)> {
        let answer = Book::drop_own(self, ticket, why);
        let _len = self.len();
        answer
    }

    fn release(&mut self, alloc: Global, agent: &AgentId) -> Result<Share, Refusal> {
        let answer = Book::release(self, alloc, agent);
        let _len = self.len();
        answer
    }

    fn settle(&mut self, share: Share, outcome: Outcome) -> Result<Settlement, (Refusal, Share)> {
        let answer = Book::settle(self, share, outcome);
        let _len = self.len();
        answer
    }

    fn settle_own(
        &mut self,
        share: Share,
        outcome: Outcome,
    ) -> Result<Settlement, (Refusal, Share)> {
        let answer = Book::settle_own(self, share, outcome);
        let _len = self.len();
        answer
    }

    fn state(&mut self, agent: &AgentId) -> Option<State> {
        let answer = Book::state(self, agent);
        let _len = self.len();
        answer
    }

    fn pick(&mut self, now: u64) -> Option<AgentId> {
        let answer = Book::pick(self, now);
        let _len = self.len();
        answer
    }

    fn next_notice(&mut self) -> Option<Notice> {
        let answer = Book::next_notice(self);
        let _len = self.len();
        answer
    }

    fn mark_delivered(&mut self, number: u64) -> bool {
        let answer = Book::mark_delivered(self, number);
        let _len = self.len();
        answer
    }
}
