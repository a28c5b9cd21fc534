//! Which calls of an object in memory fail.

ghost use Rattle.std.specs.Prelude.{◌≡◌, ◌↔◌, ◌⊎◌, IfOk, IsErr, IsTrue};
ghost use Rattle.kl_io.specs.Calls.{Counts};
ghost use Rattle.kl_io.specs.Memory.{new_script, IsListed};

use crate::{Counter, Failed};
use kl_base::Memory;
use std::alloc::Global;
use std::marker::Model;

/// The numbers of the calls that fail, from 1, and what was counted.
#[derive(Drop)]
pub struct Script {
    fails: Vec<u64>,
    counter: Counter,
}

impl Model for Script {
    ghost use Rattle.kl_io.specs.Memory.{ScriptState};

    ghost Value = { ScriptState };

    ghost view = { λ s. record { fails = s.fails.items; calls = s.counter } };
}

impl Script {
    /// Calls of these numbers fail, and none was made.
    ///
    /// # Errors
    /// [`Memory`] where there is none for the list of numbers.
    pub fn new(alloc: Global, fails: &[u64]) -> Result<Script, Memory>
        ensures { IfOk result (λ s. s ≡ new_script fails.now) }
    {
        Ok(Script {
            fails: Vec::from_slice(alloc, fails)?,
            counter: Counter::new(),
        })
    }

    /// How many calls met a fault.
    pub fn faults(&self) -> u64
        ensures { result ≡ self.now.calls.faults }
    {
        self.counter.faults()
    }

    /// Counts a call, which fails where it is listed.
    pub fn turn(&mut self) -> Result<(), Failed>
        ensures listed { IsErr result ↔ IsListed self.old }
        ensures fails { self.new.fails ≡ self.old.fails }
        ensures counted { Counts self.old.calls self.new.calls (IsErr result) }
    {
        self.turn_unless(false)
    }

    /// Counts a call that meets no fault, listed or not.
    pub fn pass(&mut self)
        ensures fails { self.new.fails ≡ self.old.fails }
        ensures counted { Counts self.old.calls self.new.calls ⊥ }
    {
        let _answered: Result<(), Failed> = self.counter.count::<(), Failed>(Ok(()));
    }

    /// Counts a call, which fails where it is listed or can't be done.
    pub fn turn_unless(&mut self, refused: bool) -> Result<(), Failed>
        ensures failing { IsErr result ↔ (IsListed self.old ⊎ IsTrue refused) }
        ensures fails { self.new.fails ≡ self.old.fails }
        ensures counted { Counts self.old.calls self.new.calls (IsErr result) }
    {
        let outcome = if refused || self.fails.contains(&self.counter.next()) {
            Err(Failed)
        } else {
            Ok(())
        };
        self.counter.count(outcome)
    }
}
