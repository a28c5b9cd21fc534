//! How far a session has come, and what a command does to it.

ghost use Rattle.std.specs.Prelude.{◌≡◌, IfOk, IfErr, string_bytes};
ghost use Rattle.kl_history.specs.Legal.{Legal};
ghost use Rattle.kl_script.specs.Commands.{fields};
ghost use Rattle.kl_session.specs.Outside.{outside};
ghost use Rattle.kl_session.specs.Calls.{SessionFields, Stands, empty};
ghost use Rattle.kl_session.specs.Closing.{IsEnded};
ghost use Rattle.kl_session.specs.Session.{Does};
ghost use Rattle.kl_session.specs.Stopped.{IsStopped};

use crate::registering::obey_registrar;
use crate::stop::Stop;
use crate::verifier::Verifier;
use kl_base::Memory;
use kl_core::Book;
use kl_exclude::PatternMaker;
use kl_io::Words;
use kl_keys::Keys;
use kl_pcr::Steps;
use kl_registrar::Registrar;
use kl_script::Command;
use std::alloc::Global;
use std::marker::Model;
use std::sync::ledger::Ledger;

/// A verifier and a registrar, to which the commands of a script go. Contracts see what they keep; what that means is
/// said by the session that it stands for.
///
/// It can't be let go: it is spent by [`close`](Session::close).
pub struct Session {
    verifier: Verifier,
    registrar: Registrar,
}

impl Model for Session {
    ghost use Rattle.std.specs.Coded.{codes};
    ghost use Rattle.kl_digests.specs.Digests.{digest_map_code};
    ghost use Rattle.kl_session.specs.Calls.{Kept};

    ghost Value = { Kept };

    ghost coded = { Prim.hlevel (codes, digest_map_code) };

    ghost view = { λ s. record { verifier = s.verifier; records = s.registrar } };
}

impl Session {
    /// A session in which nothing was done.
    ///
    /// # Errors
    /// [`Memory`] where memory runs out.
    pub fn new(alloc: Global) -> Result<Session, Memory>
        ensures { IfOk result (λ session. Stands session empty) }
    {
        let registrar = Registrar::new(alloc)?;
        Ok(Session {
            verifier: Verifier::new(alloc)?,
            registrar,
        })
    }

    /// Does what a command says, and answers the line to print, with its newline; an empty one where there is none.
    ///
    /// # Errors
    /// `NoNonce` where a nonce or a secret was to be drawn and could not be, which changes nothing. `Memory` where memory ran
    /// out, before anything was done or after all was.
    pub fn obey<Y: Keys, P: PatternMaker, N: Words, L: Ledger>(
        &mut self,
        alloc: Global,
        command: Command,
        keys: &mut Y,
        patterns: &mut P,
        words: &mut N,
        steps: &mut Steps<L>,
    ) -> Result<String, Stop>
        ensures done { IfOk result (λ line. (s : SessionFields) → Stands self.old s → (s' : SessionFields) × Stands self.new s'
            × Does (outside (Y.told keys.old) (N.told words.old) (P.told patterns.old) steps.old)
            (outside (Y.told keys.new) (N.told words.new) (P.told patterns.new) steps.new) s (fields command) s' (string_bytes line)) }
        ensures stopped { IfErr result (λ why. (s : SessionFields) → Stands self.old s → (s' : SessionFields) × Stands self.new s'
            × IsStopped why (outside (Y.told keys.old) (N.told words.old) (P.told patterns.old) steps.old)
            (outside (Y.told keys.new) (N.told words.new) (P.told patterns.new) steps.new) s (fields command) s') }
    {
        match command {
            Command::Nothing => Ok(String::new(alloc)),
            Command::Verifier(command) => {
                self.verifier
                    .obey(alloc, command, keys, patterns, words, steps)
            },
            Command::Registrar(command) => {
                obey_registrar(alloc, &mut self.registrar, command, keys, words)
            },
        }
    }

    /// Ends the session. The polls that are open are dropped, and the releases that are open withdrawn, each in the order of
    /// their numbers.
    pub fn close(self) -> Book
        ensures ended { IsEnded self.verifier.history result.history }
        ensures marks { result.marks ≡ self.verifier.marks }
        ensures legal { Legal result.history }
    {
        let Session {
            verifier,
            registrar,
        } = self;
        drop(registrar);
        verifier.close()
    }
}
