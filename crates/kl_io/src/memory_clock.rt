//! Moments in memory as a clock.

ghost use Rattle.std.specs.Prelude.{◌≡◌, IfOk, Some};
ghost use Rattle.kl_io.specs.Moments.{moment, later};

use crate::Clock;
use kl_base::Memory;
use std::alloc::Global;
use std::marker::Model;

/// A clock that gives moments in memory: its k-th call the k-th of them, past their end the last one again, and 0 where
/// there is none.
#[derive(Drop)]
pub struct MemClock {
    moments: Vec<u64>,
    place: usize,
}

impl Model for MemClock {
    ghost use Rattle.std.specs.Prelude.{◌≤◌, ℕ, List, drop, vec_len};

    ghost Value = { List ℕ };

    ghost view = { λ c. drop c.place c.moments.items };

    ghost invariant = { λ c. c.place ≤ vec_len c.moments };
}

impl MemClock {
    /// A clock that gives these moments, in milliseconds. Like the other objects in memory it may ask for memory.
    ///
    /// # Errors
    /// [`Memory`] where there is none.
    pub fn new(_alloc: Global, moments: Vec<u64>) -> Result<MemClock, Memory>
        ensures moments { IfOk result (λ c. c ≡ moments.items) }

        // As a `Clock` it tells them.
        ensures tells { IfOk result (λ c. ⟦<MemClock as Clock>⟧.told c ≡ Some moments.items) }
    {
        Ok(MemClock { moments, place: 0 })
    }
}

impl Clock for MemClock {
    ghost told = { λ c. Some c };

    fn now(&mut self) -> u64
        ensures given { result ≡ moment self.old }
        ensures left { self.new ≡ later self.old }
    {
        let given = self.moments.get(self.place).copied().unwrap_or(0);
        if self.moments.len() - self.place > 1 {
            self.place += 1;
        }
        given
    }
}
