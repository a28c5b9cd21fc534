//! Bytes in memory as a sink.

ghost use Rattle.std.specs.Prelude.{◌≡◌, ◌≢◌, ◌⊎◌, ◌↔◌, [], ◌++◌, IfOk, IsErr, OnErr, OnOk, None, Some};
ghost use Rattle.std.specs.Io.KnownBytes.{Appends};
ghost use Rattle.kl_io.specs.Calls.{Counts};
ghost use Rattle.kl_io.specs.Memory.{IsListed, PassesRoom};
ghost use Rattle.kl_io.specs.Told.{AppendsFront, new_sink};

use crate::{Failed, Script, Sink};
use kl_base::Memory;
use std::alloc::Global;
use std::marker::Model;

/// A sink that keeps its bytes in memory, in a room of a fixed size, and some of whose calls fail.
///
/// Its puts are numbered from 1. Those that are listed fail, and those that would pass the room. A put
/// takes no memory, since the room was reserved, and one that fails appends nothing.
#[derive(Drop)]
pub struct MemSink {
    bytes: Vec<u8>,
    room: usize,
    script: Script,
}

impl Model for MemSink {
    ghost use Rattle.std.specs.Prelude.{◌≤◌, vec_capacity, vec_len};
    ghost use Rattle.kl_io.specs.Memory.{SinkState};

    ghost Value = { SinkState };

    ghost view = { λ s. record {
      bytes = s.bytes.items;
      room = s.room;
      script = s.script;
    } };

    ghost invariant = { λ s. (vec_len s.bytes ≤ s.room) × (s.room ≤ vec_capacity s.bytes) };
}

impl MemSink {
    /// An empty sink with room for so many bytes, which fails at the calls of these numbers.
    ///
    /// # Errors
    /// [`Memory`] where there is none for the room and the list of numbers.
    pub fn new(alloc: Global, room: usize, fails: &[u64]) -> Result<MemSink, Memory>
        ensures empty { IfOk result (λ s. s.bytes ≡ []) }
        ensures room { IfOk result (λ s. s.room ≡ room) }
        ensures fails { IfOk result (λ s. s.script.fails ≡ fails.now) }

        // As a `Sink` it tells that it holds nothing, and no call.
        ensures tells { IfOk result (λ s. ⟦<MemSink as Sink>⟧.told s ≡ new_sink (Some [])) }
    {
        let script = Script::new(alloc, fails)?;
        Ok(MemSink {
            bytes: Vec::with_capacity(alloc, room)?,
            room,
            script,
        })
    }

    /// The bytes that it holds.
    pub fn held(&self) -> &[u8]
        ensures { result.now ≡ self.now.bytes }
    {
        self.bytes.as_slice()
    }
}

impl Sink for MemSink {
    ghost told = { λ s. record { held = Some s.bytes; ahead = None; place = 0; calls = s.script.calls } };

    fn faults(&self) -> u64 {
        self.script.faults()
    }

    fn put(&mut self, piece: &[u8]) -> Result<(), Failed>
        ensures whole { OnOk result (Appends (Some self.old.bytes) (Some self.new.bytes) piece.now) }
        ensures front { OnErr result (AppendsFront (Some self.old.bytes) (Some self.new.bytes) piece.now) }
        ensures counted { Counts self.old.script.calls self.new.script.calls (IsErr result) }

        // It fails exactly at the listed calls and where the room is passed, and then appends nothing.
        ensures failing { IsErr result ↔ (IsListed self.old.script ⊎ PassesRoom self.old piece.now) }
        ensures nothing { OnErr result (self.new.bytes ≡ self.old.bytes) }
        ensures room { self.new.room ≡ self.old.room }
        ensures fails { self.new.script.fails ≡ self.old.script.fails }
    {
        let passes = piece.len() > self.room - self.bytes.len();
        self.script.turn_unless(passes)?;
        if self.bytes.extend_from_slice(piece).is_err() {
            unreachable!()
        }
        Ok(())
    }
}
