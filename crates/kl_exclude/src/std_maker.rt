//! Patterns made by `regex`.

ghost use Rattle.std.specs.Prelude.{◌≡◌, ◌≤◌, ◌∷◌, [], length, IfOk, IsErrOf};
ghost use Rattle.kl_io.specs.Calls.{Counts, one_more};
ghost use Rattle.kl_exclude.specs.Excludes.{IsPattern};
ghost use Rattle.kl_exclude.specs.Making.{IsRegexOf};
ghost use Rattle.kl_exclude.specs.Told.{new_maker, told_of, Logs};

use crate::fault::PatternFault;
use crate::maker::PatternMaker;
use kl_base::Short;
use kl_io::{Counter, Failed};
use regex::{Error, Regex};
use std::alloc::Global;
use std::marker::Model;

/// Makes patterns by `regex`, and refuses as too large what `regex` does: a text whose program would take over 10 MiB.
///
/// A contract sees what it counted.
#[derive(Drop)]
pub struct StdMaker {
    counter: Counter,
    refused: Short<512>,
}

impl Model for StdMaker {
    ghost use Rattle.kl_exclude.specs.Told.{MakerState};

    ghost Value = { MakerState };

    ghost view = { λ m. record { calls = m.counter; refused = m.refused } };
}

impl StdMaker {
    /// It was not called yet.
    pub fn new() -> StdMaker
        ensures state { result ≡ new_maker }

        // As a `PatternMaker` it tells no call, and not what it is asked.
        ensures tells { ⟦<StdMaker as PatternMaker>⟧.told result ≡ told_of new_maker }
    {
        StdMaker {
            counter: Counter::new(),
            refused: Short::new(b""),
        }
    }

    /// The number of the next call.
    pub(crate) fn next(&self) -> u64
        ensures { result ≡ one_more self.now.calls.made }
    {
        self.counter.next()
    }

    /// Counts a call that refuses the text as too large.
    pub(crate) fn refuse(&mut self, text: &str) -> PatternFault
        requires fits { length text.now ≤ 512 }
        ensures fault { result ≡ PatternFault.TooLarge }
        ensures refused { self.new.refused ≡ text.now }
        ensures counted { Counts self.old.calls self.new.calls (result ≡ PatternFault.TooLarge) }
    {
        let _failed: Result<(), Failed> = self.counter.count::<(), Failed>(Err(Failed));
        self.refused = Short::new(text.as_bytes());
        PatternFault::TooLarge
    }

    /// Counts a call that refuses nothing as too large.
    fn pass(&mut self)
        ensures refused { self.new.refused ≡ self.old.refused }
        ensures counted { Counts self.old.calls self.new.calls ⊥ }
    {
        let _answered: Result<(), Failed> = self.counter.count::<(), Failed>(Ok(()));
    }
}

impl PatternMaker for StdMaker {
    ghost told = { told_of };

    fn sizes(&self) -> u64 {
        self.counter.faults()
    }

    fn make(&mut self, alloc: Global, text: &str) -> Result<Regex, PatternFault>
        requires fits { length text.now ≤ 512 }
        ensures made { IfOk result (IsRegexOf text.now) }
        ensures syntax { IsErrOf result PatternFault.Syntax → ¬ (IsPattern text.now) }
        ensures counted { Counts self.old.calls self.new.calls (IsErrOf result PatternFault.TooLarge) }
        ensures refused { IsErrOf result PatternFault.TooLarge → self.new.refused ≡ text.now }
        ensures kept { ¬ (IsErrOf result PatternFault.TooLarge) → self.new.refused ≡ self.old.refused }
        ensures logged { Logs (told_of self.old) (told_of self.new) (text.now ∷ []) }

        // Only a pattern is too large.
        ensures sized { IsErrOf result PatternFault.TooLarge → IsPattern text.now }
    {
        match regex_of(alloc, text) {
            Ok(made) => {
                self.pass();
                Ok(made)
            }
            Err(PatternFault::TooLarge) => Err(self.refuse(text)),
            Err(PatternFault::Syntax) => {
                self.pass();
                Err(PatternFault::Syntax)
            }
            Err(PatternFault::Memory) => {
                self.pass();
                Err(PatternFault::Memory)
            }
        }
    }
}

/// What `regex` makes of the text.
fn regex_of(alloc: Global, text: &str) -> Result<Regex, PatternFault>
    ensures made { IfOk result (IsRegexOf text.now) }
    ensures syntax { IsErrOf result PatternFault.Syntax → ¬ (IsPattern text.now) }
    ensures sized { IsErrOf result PatternFault.TooLarge → IsPattern text.now }
{
    match Regex::new(alloc, text) {
        Ok(made) => Ok(made),
        Err(Error::Syntax(_)) => Err(PatternFault::Syntax),
        Err(Error::CompiledTooBig) => Err(PatternFault::TooLarge),
        Err(Error::OutOfMemory) => Err(PatternFault::Memory),
        Err(Error::Internal) => unreachable!(),
    }
}
