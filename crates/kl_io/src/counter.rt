//! What is counted of calls.

ghost use Rattle.std.specs.Prelude.{◌≡◌, IsErr, IfOk, OnErr, Ok};
ghost use Rattle.kl_io.specs.Calls.{one_more, no_calls, Counts};

use crate::Failed;
use std::marker::Model;

/// How often an object was called, how many of its calls met a fault, and whether the last one did. Both counts stop at
/// `u64::MAX`.
#[derive(Clone, Copy)]
pub struct Counter {
    made: u64,
    faults: u64,
    failed: bool,
}

impl Model for Counter {
    ghost use Rattle.kl_io.specs.Calls.{Calls};

    ghost Value = { Calls };

    ghost view = { λ c. record { made = c.made; faults = c.faults; failed = c.failed } };

    ghost inverse = { λ c. record { made = c.made; faults = c.faults; failed = c.failed } };
}

impl Counter {
    /// No call so far.
    pub fn new() -> Counter
        ensures { result ≡ no_calls }
    {
        Counter {
            made: 0,
            faults: 0,
            failed: false,
        }
    }

    /// How many calls met a fault.
    pub fn faults(&self) -> u64
        ensures { result ≡ self.now.faults }
    {
        self.faults
    }

    /// The number of the next call.
    pub fn next(&self) -> u64
        ensures { result ≡ one_more self.now.made }
    {
        self.made.saturating_add(1)
    }

    /// Counts a call that came out so, and gives this on. Each `Err` is a fault.
    pub fn count<T, E: Drop>(&mut self, outcome: Result<T, E>) -> Result<T, Failed>
        ensures counted { Counts self.old self.new (IsErr result) }
        ensures ok { IfOk outcome (λ x. result ≡ Ok x) }
        ensures err { OnErr outcome (IsErr result) }
    {
        self.made = self.next();
        match outcome {
            Ok(value) => {
                self.failed = false;
                Ok(value)
            }
            Err(_) => {
                self.faults = self.faults.saturating_add(1);
                self.failed = true;
                Err(Failed)
            }
        }
    }
}
