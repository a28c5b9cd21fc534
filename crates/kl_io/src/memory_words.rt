//! Bytes in memory as words.

ghost use Rattle.std.specs.Prelude.{◌≡◌, ◌<◌, ◌≤◌, ◌↔◌, length, IfOk, IsErrOf, OnErr, OnOk, Some};
ghost use Rattle.std.specs.Io.KnownBytes.{Consumes};
ghost use Rattle.kl_io.specs.Calls.{Counts};
ghost use Rattle.kl_io.specs.Memory.{IsListed};
ghost use Rattle.kl_io.specs.Told.{Ends, new_words};

use crate::stock::Stock;
use crate::{Script, Words, WordsError};
use kl_base::Memory;
use std::alloc::Global;
use std::marker::Model;

/// Words over bytes in memory, some of whose calls fail.
///
/// Its fills are numbered from 1, and those that are listed fail, but where fewer bytes are left than the buffer has:
/// there each answers that the words have ended.
#[derive(Drop)]
pub struct MemWords {
    stock: Stock,
    script: Script,
}

impl Model for MemWords {
    ghost use Rattle.kl_io.specs.Memory.{SourceState};

    ghost Value = { SourceState };

    ghost view = { λ w. record { rest = w.stock; script = w.script } };
}

impl MemWords {
    /// Words that give the content, and fail at the calls of these numbers.
    ///
    /// # Errors
    /// [`Memory`] where there is none for the list of numbers.
    pub fn new(alloc: Global, content: Vec<u8>, fails: &[u64]) -> Result<MemWords, Memory>
        ensures content { IfOk result (λ w. w.rest ≡ content.items) }
        ensures fails { IfOk result (λ w. w.script.fails ≡ fails.now) }

        // As `Words` they tell their content, and no call.
        ensures tells { IfOk result (λ w. ⟦<MemWords as Words>⟧.told w ≡ new_words (Some content.items)) }
    {
        Ok(MemWords {
            stock: Stock::new(content),
            script: Script::new(alloc, fails)?,
        })
    }
}

impl Words for MemWords {
    ghost told = { λ w. record { left = Some w.rest; calls = w.script.calls } };

    fn faults(&self) -> u64 {
        self.script.faults()
    }

    fn fill(&mut self, buf: &mut [u8]) -> Result<(), WordsError>
        ensures room { length buf.new ≡ length buf.old }
        ensures filled { OnOk result (Consumes (Some self.old.rest) (Some self.new.rest) buf.new) }
        ensures nothing { OnErr result (self.new.rest ≡ self.old.rest) }
        ensures ended { Ends (Some self.old.rest) (length buf.old) (IsErrOf result WordsError.Ended) }
        ensures counted { Counts self.old.script.calls self.new.script.calls (IsErrOf result WordsError.Failed) }

        // It fails exactly at the listed calls for which there are bytes enough.
        ensures listed { IsErrOf result WordsError.Failed ↔ (IsListed self.old.script × length buf.old ≤ length self.old.rest) }
        ensures fails { self.new.script.fails ≡ self.old.script.fails }
    {
        if self.stock.len() < buf.len() {
            self.script.pass();
            return Err(WordsError::Ended);
        }
        self.script.turn()?;
        self.stock.hand_out(buf);
        Ok(())
    }
}
