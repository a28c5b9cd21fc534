//! The right to close a poll.

ghost use Rattle.std.specs.Prelude.{◌≡◌};
ghost use Rattle.kl_appraise.specs.Kept.{from_of};
ghost use Rattle.kl_incr.specs.Kept.{AreKept};

use kl_appraise::{Kept, SharedTerms, Terms};
use kl_states::{AgentId, Nonce};
use std::marker::Model;

/// The right to close one poll of an agent, with what its appraisal needs. It can't be let go: it is spent by
/// closing the poll, or by [`discard`](Ticket::discard) where a verifier refused it.
pub struct Ticket {
    poll: u64,
    agent: AgentId,
    generation: u64,
    nonce: Nonce,
    terms: SharedTerms,
    kept: Option<Kept>,
}

impl Model for Ticket {
    ghost use Rattle.std.specs.Coded.{codes};
    ghost use Rattle.kl_digests.specs.Digests.{digest_map_code};
    ghost use Rattle.kl_incr.specs.Kept.{TicketFields, AreKept};

    ghost Value = { TicketFields };

    ghost coded = { Prim.hlevel (codes, digest_map_code) };

    ghost view = { λ t. record {
      poll = t.poll;
      agent = t.agent;
      generation = t.generation;
      nonce = t.nonce;
      terms = t.terms;
      kept = t.kept;
    } };

    ghost invariant = { λ t. AreKept t.terms t.kept };
}

impl Ticket {
    /// The ticket of a poll.
    ///
    /// What is kept of the accepted list has 1 to 131,072 entries, and a PCR of the size of the terms' bank.
    pub fn new(
        poll: u64,
        agent: AgentId,
        generation: u64,
        nonce: Nonce,
        terms: SharedTerms,
        kept: Option<Kept>,
    ) -> Ticket
        requires { AreKept terms kept }
        ensures { result ≡ record {
          poll = poll;
          agent = agent;
          generation = generation;
          nonce = nonce;
          terms = terms;
          kept = kept;
        } }
    {
        Ticket {
            poll,
            agent,
            generation,
            nonce,
            terms,
            kept,
        }
    }

    /// The number of the poll.
    pub fn poll(&self) -> u64
        ensures { result ≡ self.now.poll }
    {
        self.poll
    }

    /// Whose poll it is.
    pub fn agent(&self) -> AgentId
        ensures { result ≡ self.now.agent }
    {
        self.agent
    }

    /// The policy generation that the poll's begin named.
    pub fn generation(&self) -> u64
        ensures { result ≡ self.now.generation }
    {
        self.generation
    }

    /// What the quote has to carry.
    pub fn nonce(&self) -> &Nonce
        ensures { result.now ≡ self.now.nonce }
    {
        &self.nonce
    }

    /// The entry from which the measurement list is asked for: how many are accepted.
    pub fn from(&self) -> u64
        ensures { result ≡ from_of self.now.kept }
    {
        match self.kept {
            Some(kept) => kept.count,
            None => 0,
        }
    }

    /// The terms of the generation.
    pub fn terms(&self) -> &Terms
        ensures { result.now ≡ self.now.terms }
    {
        self.terms.terms()
    }

    /// What is kept of the list that was accepted when the poll began.
    pub fn kept(&self) -> Option<Kept>
        ensures value { result ≡ self.now.kept }
        ensures form { AreKept self.now.terms self.now.kept }
    {
        self.kept
    }

    /// Takes apart a ticket that a verifier refused. It closes nothing.
    pub fn discard(self) {
        let Ticket {
            poll: _,
            agent: _,
            generation: _,
            nonce: _,
            terms: _terms,
            kept: _,
        } = self;
    }
}
