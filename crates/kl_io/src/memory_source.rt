//! Bytes in memory as a source.

ghost use Rattle.std.specs.Prelude.{◌≡◌, ◌↔◌, length, min, IfOk, IsErr, None, Some};
ghost use Rattle.std.specs.Io.{ReadsAtMost};
ghost use Rattle.std.specs.Io.KnownBytes.{ReadConsumes};
ghost use Rattle.kl_io.specs.Calls.{Counts};
ghost use Rattle.kl_io.specs.Memory.{IsListed};
ghost use Rattle.kl_io.specs.Told.{new_source};

use crate::stock::Stock;
use crate::{Failed, Script, Source};
use kl_base::Memory;
use std::alloc::Global;
use std::marker::Model;

/// A source over bytes in memory, some of whose calls fail.
///
/// Its reads are numbered from 1, and those that are listed fail. A read that does not fail takes as many
/// bytes as there are and the buffer has room for.
#[derive(Drop)]
pub struct MemSource {
    stock: Stock,
    script: Script,
}

impl Model for MemSource {
    ghost use Rattle.kl_io.specs.Memory.{SourceState};

    ghost Value = { SourceState };

    ghost view = { λ s. record { rest = s.stock; script = s.script } };
}

impl MemSource {
    /// A source that gives the content, and fails at the calls of these numbers.
    ///
    /// # Errors
    /// [`Memory`] where there is none for the list of numbers.
    pub fn new(alloc: Global, content: Vec<u8>, fails: &[u64]) -> Result<MemSource, Memory>
        ensures content { IfOk result (λ s. s.rest ≡ content.items) }
        ensures fails { IfOk result (λ s. s.script.fails ≡ fails.now) }

        // As a `Source` it tells its content, and no call.
        ensures tells { IfOk result (λ s. ⟦<MemSource as Source>⟧.told s ≡ new_source (Some content.items)) }
    {
        Ok(MemSource {
            stock: Stock::new(content),
            script: Script::new(alloc, fails)?,
        })
    }
}

impl Source for MemSource {
    ghost told = { λ s. record { left = Some s.rest; kept = None; place = 0; calls = s.script.calls } };

    fn faults(&self) -> u64 {
        self.script.faults()
    }

    fn read(&mut self, buf: &mut [u8]) -> Result<usize, Failed>
        ensures bound { ReadsAtMost result buf.new }
        ensures bytes { ReadConsumes (Some self.old.rest) (Some self.new.rest) result buf.new }
        ensures counted { Counts self.old.script.calls self.new.script.calls (IsErr result) }

        // It fails exactly at the listed calls, and else takes all that there is room for.
        ensures listed { IsErr result ↔ IsListed self.old.script }
        ensures count { IfOk result (λ n. n ≡ min (length buf.old) (length self.old.rest)) }
        ensures fails { self.new.script.fails ≡ self.old.script.fails }
    {
        self.script.turn()?;
        Ok(self.stock.hand_out(buf))
    }
}
