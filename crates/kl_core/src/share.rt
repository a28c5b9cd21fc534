//! The right to settle a release.

ghost use Rattle.std.specs.Prelude.{◌≡◌};

use kl_states::{AgentId, Text};
use std::marker::Model;

/// The key share V of an agent, released on a pass of it, and the right to settle that release. It can't be let go: it is
/// spent by settling the release, or by [`discard`](Share::discard) where a desk refused it.
pub struct Share {
    number: u64,
    agent: AgentId,
    generation: u64,
    poll: u64,
    v: [u8; 32],
    public: Text,
    contact: Text,
}

impl Model for Share {
    ghost use Rattle.kl_core.specs.Shares.{ShareFields};

    ghost Value = { ShareFields };

    ghost view = { λ s. record {
      number = s.number;
      agent = s.agent;
      generation = s.generation;
      poll = s.poll;
      v = s.v;
      public = s.public;
      contact = s.contact;
    } };
}

impl Share {
    /// The share of a release.
    pub(crate) fn new(
        number: u64,
        agent: AgentId,
        generation: u64,
        poll: u64,
        v: [u8; 32],
        public: Text,
        contact: Text,
    ) -> Share
        ensures { result ≡ record {
          number = number;
          agent = agent;
          generation = generation;
          poll = poll;
          v = v;
          public = public;
          contact = contact;
        } }
    {
        Share {
            number,
            agent,
            generation,
            poll,
            v,
            public,
            contact,
        }
    }

    /// The number of the release.
    pub fn number(&self) -> u64
        ensures { result ≡ self.now.number }
    {
        self.number
    }

    /// Whose share it is.
    pub fn agent(&self) -> AgentId
        ensures { result ≡ self.now.agent }
    {
        self.agent
    }

    /// The policy generation that was installed when it was released.
    pub fn generation(&self) -> u64
        ensures { result ≡ self.now.generation }
    {
        self.generation
    }

    /// The poll whose pass it is released on.
    pub fn poll(&self) -> u64
        ensures { result ≡ self.now.poll }
    {
        self.poll
    }

    /// The share V itself.
    pub fn v(&self) -> &[u8; 32]
        ensures { result.now ≡ self.now.v }
    {
        &self.v
    }

    /// The public key that it is sealed to: that of the evidence of the poll.
    pub fn public(&self) -> &str
        ensures { result.now ≡ self.now.public }
    {
        self.public.as_str()
    }

    /// Where the agent is reached.
    pub fn contact(&self) -> &str
        ensures { result.now ≡ self.now.contact }
    {
        self.contact.as_str()
    }

    /// Takes apart a share that a desk refused. It settles nothing.
    pub fn discard(self) {
        let Share {
            number: _,
            agent: _,
            generation: _,
            poll: _,
            v: _,
            public: _public,
            contact: _contact,
        } = self;
    }
}
