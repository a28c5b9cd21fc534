//! Polls are closed.

ghost use Rattle.std.specs.Prelude.{◌≡◌, ◌↔◌, ◌∷◌, [], true, IsTrue};
ghost use Rattle.kl_history.specs.Records.{is_open};
ghost use Rattle.kl_core.specs.Books.{past, with_more};
ghost use Rattle.kl_core.specs.Tickets.{IsGiven, IsOpenTicket};
ghost use Rattle.kl_core.specs.Closes.{IsClosed, closed_by, found_record, OwnFinishes, Finishes, finish_makes, OwnLoses, Loses, lose_makes, OwnDrops, Drops, drop_makes};
ghost use Rattle.kl_core.specs.Inner.Closing.{close_as, close_record, IsCloseOf};

use super::Book;
use crate::closed::Closed;
use crate::closing::{Close, closed_if};
use crate::refusal::Refusal;
use kl_agents::{kept_if, note_if, op_now, post_if, take_one};
use kl_incr::{Appraised, Parts, Ticket};
use kl_states::{DropWhy, LostWhy};

impl Book {
    /// Closes an open poll by this.
    fn close(&mut self, ticket: Ticket, by: Close) -> Closed
        requires given { IsGiven (past self.old) ticket }
        requires opened { is_open (past self.old) ticket.poll ≡ true }
        requires holds { IsCloseOf ticket by }
        ensures answer { IsClosed (past self.old) (close_record ticket.poll by result.current) ticket (close_as by) result }
        ensures history { self.new ≡ with_more (close_record ticket.poll by result.current ∷ []) self.old }
    {
        let (poll, agent) = (ticket.poll(), ticket.agent());
        let current = self.current_entry(&agent, ticket.generation()).is_some();
        ticket.discard();
        let as_what = by.as_what();
        let entry = kept_if(&self.agents, &agent, current);
        let place = self.records.len();
        let reached = self.reaches(&agent, by.boot());
        let noted = closed_if(entry, poll, place, reached, &by);
        note_if(&mut self.agents, &agent, noted);
        take_one(&mut self.polls, poll);
        post_if(&mut self.outbox, agent, noted, by.why());
        self.weight += by.weight();
        self.records.push_reserved(by.into_record(poll, current));
        Closed {
            poll,
            agent,
            as_what,
            current,
            op: op_now(&self.agents, &agent),
        }
    }

    /// Closes an open poll by what was found.
    fn close_found(&mut self, done: Appraised) -> Closed
        requires given { IsGiven (past self.old) done.ticket }
        requires opened { is_open (past self.old) done.ticket.poll ≡ true }
        ensures answer { IsClosed (past self.old) (found_record done result.current) done.ticket (closed_by done.finding) result }
        ensures history { self.new ≡ with_more (found_record done result.current ∷ []) self.old }
    {
        let Parts {
            ticket,
            evidence,
            signed,
            finding,
            next,
        } = done.into_parts();
        self.close(
            ticket,
            Close::Found {
                evidence,
                signed,
                finding,
                next,
            },
        )
    }

    /// Whether a ticket is the one that the begin of an open poll gave, by value.
    fn holds(&self, ticket: &Ticket) -> bool
        ensures { IsTrue result ↔ IsOpenTicket (past self.now) ticket.now }
    {
        match self.opening(ticket.poll()) {
            Some(opening) => {
                opening.agent == ticket.agent()
                    && opening.generation == ticket.generation()
                    && opening.nonce == *ticket.nonce()
                    && ticket.kept().is_none()
                    && self.terms_at(opening.place).terms().equals(ticket.terms())
            },
            None => false,
        }
    }

    /// Closes a poll by what the appraisal of its evidence found; the ticket is the one that its begin gave.
    ///
    /// # Errors
    /// `NoPoll` where the poll is not open.
    pub fn finish_own(&mut self, done: Appraised) -> Result<Closed, (Refusal, Appraised)>
        requires { IsGiven (past self.old) done.ticket }
        ensures answer { OwnFinishes done result (past self.old) }
        ensures history { self.new ≡ with_more (finish_makes done result (past self.old)) self.old }
    {
        let poll = done.ticket().poll();
        if !self.is_open(poll) {
            return Err((Refusal::NoPoll(poll), done));
        }
        Ok(self.close_found(done))
    }

    /// Closes a poll by what the appraisal of its evidence found.
    ///
    /// # Errors
    /// `NoPoll` where the ticket is not the one that the begin of an open poll gave, compared by value.
    pub fn finish(&mut self, done: Appraised) -> Result<Closed, (Refusal, Appraised)>
        ensures answer { Finishes done result (past self.old) }
        ensures history { self.new ≡ with_more (finish_makes done result (past self.old)) self.old }
    {
        if !self.holds(done.ticket()) {
            return Err((Refusal::NoPoll(done.ticket().poll()), done));
        }
        Ok(self.close_found(done))
    }

    /// Closes a poll of which no evidence came back; the ticket is the one that its begin gave.
    ///
    /// # Errors
    /// `NoPoll` where the poll is not open.
    pub fn lose_own(&mut self, ticket: Ticket, why: LostWhy) -> Result<Closed, (Refusal, Ticket)>
        requires { IsGiven (past self.old) ticket }
        ensures answer { OwnLoses ticket why result (past self.old) }
        ensures history { self.new ≡ with_more (lose_makes ticket why result (past self.old)) self.old }
    {
        let poll = ticket.poll();
        if !self.is_open(poll) {
            return Err((Refusal::NoPoll(poll), ticket));
        }
        Ok(self.close(ticket, Close::Lost(why)))
    }

    /// Closes a poll of which no evidence came back.
    ///
    /// # Errors
    /// `NoPoll` where the ticket is not the one that the begin of an open poll gave, compared by value.
    pub fn lose(&mut self, ticket: Ticket, why: LostWhy) -> Result<Closed, (Refusal, Ticket)>
        ensures answer { Loses ticket why result (past self.old) }
        ensures history { self.new ≡ with_more (lose_makes ticket why result (past self.old)) self.old }
    {
        if !self.holds(&ticket) {
            return Err((Refusal::NoPoll(ticket.poll()), ticket));
        }
        Ok(self.close(ticket, Close::Lost(why)))
    }

    /// Closes a poll without counting it for or against its agent; the ticket is the one that its begin gave.
    ///
    /// # Errors
    /// `NoPoll` where the poll is not open.
    pub fn drop_own(&mut self, ticket: Ticket, why: DropWhy) -> Result<Closed, (Refusal, Ticket)>
        requires { IsGiven (past self.old) ticket }
        ensures answer { OwnDrops ticket why result (past self.old) }
        ensures history { self.new ≡ with_more (drop_makes ticket why result (past self.old)) self.old }
    {
        let poll = ticket.poll();
        if !self.is_open(poll) {
            return Err((Refusal::NoPoll(poll), ticket));
        }
        Ok(self.close(ticket, Close::Dropped(why)))
    }

    /// Closes a poll without counting it for or against its agent.
    ///
    /// # Errors
    /// `NoPoll` where the ticket is not the one that the begin of an open poll gave, compared by value.
    pub fn drop_poll(&mut self, ticket: Ticket, why: DropWhy) -> Result<Closed, (Refusal, Ticket)>
        ensures answer { Drops ticket why result (past self.old) }
        ensures history { self.new ≡ with_more (drop_makes ticket why result (past self.old)) self.old }
    {
        if !self.holds(&ticket) {
            return Err((Refusal::NoPoll(ticket.poll()), ticket));
        }
        Ok(self.close(ticket, Close::Dropped(why)))
    }
}
