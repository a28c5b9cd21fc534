//! How far a verifier has come, and what a command does to it.

ghost use Rattle.std.specs.Prelude.{◌≡◌, IfOk, IfErr, string_bytes};
ghost use Rattle.kl_script.specs.Commands.{verifier_fields};
ghost use Rattle.kl_session.specs.Outside.{outside};
ghost use Rattle.kl_session.specs.Calls.{empty};
ghost use Rattle.kl_session.specs.Verifying.{VerifierDoes};
ghost use Rattle.kl_session.specs.States.{SaysState};
ghost use Rattle.kl_session.specs.Texts.{now_line};
ghost use Rattle.kl_session.specs.Stopped.{VerifierStopped};

use crate::refusals::say_refused;
use crate::stop::Stop;
use crate::texts::{now_line, standing_line};
use kl_base::Memory;
use kl_core::{Book, Refusal, Share};
use kl_exclude::PatternMaker;
use kl_incr::Ticket;
use kl_io::Words;
use kl_keys::Keys;
use kl_pcr::Steps;
use kl_script::VerifierCommand;
use kl_states::AgentId;
use std::alloc::Global;
use std::marker::Model;
use std::sync::ledger::Ledger;

/// How far a verifier has come. Contracts see it as the history of its polls, how far the
/// notices of that are delivered, and the moment.
///
/// It can't be let go: it is spent by [`close`](Verifier::close).
pub struct Verifier {
    pub(crate) book: Book,
    /// Of the open polls, in the order of their numbers.
    pub(crate) tickets: Vec<Ticket>,
    /// Of the open releases, in the order of their numbers.
    pub(crate) shares: Vec<Share>,
    pub(crate) moment: u64,
    /// The place of the record that installed the policy which was read last: where the next one has the same text, it
    /// is shared and not read again.
    pub(crate) latest: u64,
}

impl Model for Verifier {
    ghost use Rattle.std.specs.Coded.{codes};
    ghost use Rattle.kl_digests.specs.Digests.{digest_map_code};
    ghost use Rattle.kl_core.specs.Books.{past};
    ghost use Rattle.kl_session.specs.Calls.{VerifierFields, verifier_of};
    ghost use Rattle.kl_session.specs.Inner.Tickets.{AreKept};

    ghost Value = { VerifierFields };

    ghost coded = { Prim.hlevel (codes, digest_map_code) };

    ghost view = { λ s. verifier_of s.book s.moment };

    ghost invariant = { λ s. AreKept (past s.book) s.tickets.items s.shares.items };
}

impl Verifier {
    /// A verifier that did nothing yet.
    ///
    /// # Errors
    /// [`Memory`] where memory runs out.
    pub(crate) fn new(alloc: Global) -> Result<Verifier, Memory>
        ensures { IfOk result (λ verifier. verifier ≡ empty.verifier) }
    {
        Ok(Verifier {
            book: Book::new(alloc)?,
            tickets: Vec::new(alloc),
            shares: Vec::new(alloc),
            moment: 0,
            latest: 0,
        })
    }

    /// Does what a command says, and answers the line to print, with its newline.
    ///
    /// # Errors
    /// `NoNonce` where a nonce was to be drawn and could not be, which changes nothing. `Memory` where memory ran
    /// out, before anything was done or after all was.
    pub(crate) fn obey<Y: Keys, P: PatternMaker, N: Words, L: Ledger>(
        &mut self,
        alloc: Global,
        command: VerifierCommand,
        keys: &mut Y,
        patterns: &mut P,
        nonces: &mut N,
        steps: &mut Steps<L>,
    ) -> Result<String, Stop>
        ensures done { IfOk result (λ line. VerifierDoes (outside (Y.told keys.old) (N.told nonces.old) (P.told patterns.old) steps.old)
            (outside (Y.told keys.new) (N.told nonces.new) (P.told patterns.new) steps.new) self.old (verifier_fields command) self.new (string_bytes line)) }
        ensures stopped { IfErr result (λ why. VerifierStopped why (outside (Y.told keys.old) (N.told nonces.old) (P.told patterns.old) steps.old)
            (outside (Y.told keys.new) (N.told nonces.new) (P.told patterns.new) steps.new) self.old (verifier_fields command) self.new) }
    {
        match command {
            VerifierCommand::Add(add) => self.add(alloc, add, patterns),
            VerifierCommand::Replace(replace) => self.replace(alloc, replace, patterns),
            VerifierCommand::Reactivate(agent) => self.reactivate(alloc, agent),
            VerifierCommand::Stop(agent) => self.stop(alloc, agent),
            VerifierCommand::Remove(agent) => self.remove(alloc, agent),
            VerifierCommand::Now(moment) => self.set_now(alloc, moment),
            VerifierCommand::Begin(begin) => self.begin(alloc, begin, nonces),
            VerifierCommand::Reply(reply) => self.reply(alloc, reply, keys, steps),
            VerifierCommand::State(agent) => self.state(alloc, agent),
            VerifierCommand::Lose(poll) => self.lose(alloc, poll),
            VerifierCommand::Pick => self.pick(alloc),
            VerifierCommand::Release(agent) => self.release(alloc, agent),
            VerifierCommand::Settle(settle) => self.settle(alloc, settle),
            VerifierCommand::Notice => self.notice(alloc),
            VerifierCommand::Noticed(number) => self.noticed(alloc, number),
        }
    }

    /// Sets the moment, in milliseconds.
    fn set_now(&mut self, alloc: Global, moment: u64) -> Result<String, Stop>
        ensures set { self.new ≡ record { history = self.old.history; marks = self.old.marks; moment = moment } }
        ensures line { IfOk result (λ line. string_bytes line ≡ now_line moment) }
        ensures short { IfErr result (λ stop. stop ≡ Stop.Memory) }
    {
        self.moment = moment;
        Ok(now_line(alloc, moment)?)
    }

    /// How an agent stands.
    fn state(&self, alloc: Global, agent: AgentId) -> Result<String, Stop>
        ensures says { IfOk result (λ line. SaysState agent self.now (string_bytes line)) }
        ensures short { IfErr result (λ stop. stop ≡ Stop.Memory) }
    {
        match self.book.state(&agent) {
            Some(state) => Ok(standing_line(alloc, agent, state)?),
            None => say_refused(alloc, Refusal::NoAgent),
        }
    }
}
