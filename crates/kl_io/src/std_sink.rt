//! A writer of std as a sink.

ghost use Rattle.std.specs.Prelude.{◌≡◌, None, OnOk, OnErr};
ghost use Rattle.std.specs.Io.KnownBytes.{Appends};
ghost use Rattle.kl_io.specs.Adapters.{writer_of};
ghost use Rattle.kl_io.specs.Told.{AppendsFront, new_sink};

use crate::{Counter, Failed, Sink};
use std::io::Write;

/// A sink over a writer of std, as standard output, a socket or a `Vec`.
///
/// It counts each call, and as faults each `Err` and each write that takes nothing. It tells the bytes that the writer
/// is known to hold: of a file, a pipe or a socket nothing.
#[derive(Drop)]
pub struct StdSink<W> {
    inner: W,
    counter: Counter,
}

impl<W: Write> StdSink<W> {
    /// A sink over this writer, which was not called yet.
    pub fn new(inner: W) -> StdSink<W>
        ensures writer { writer_of result ≡ inner }

        // As a `Sink` it tells what the writer tells, and no call.
        ensures tells { ⟦<StdSink<W> as Sink>⟧.told result ≡ new_sink (W.contents inner) }
    {
        StdSink {
            inner,
            counter: Counter::new(),
        }
    }
}

impl<W: Write> Sink for StdSink<W> {
    ghost told = { λ s. record { held = W.contents s.inner; ahead = None; place = 0; calls = s.counter } };

    fn faults(&self) -> u64 {
        self.counter.faults()
    }

    fn put(&mut self, piece: &[u8]) -> Result<(), Failed> {
        self.counter.count(write_out(&mut self.inner, piece))
    }
}

/// Writes all of the piece, and flushes so that no part of it waits in a buffer.
fn write_out<W: Write>(writer: &mut W, piece: &[u8]) -> Result<(), Failed>
    ensures whole { OnOk result (Appends (W.contents writer.old) (W.contents writer.new) piece.now) }
    ensures front { OnErr result (AppendsFront (W.contents writer.old) (W.contents writer.new) piece.now) }
{
    let mut rest = piece;
    while !rest.is_empty() {
        match writer.write(rest) {
            Ok(0) | Err(_) => return Err(Failed),
            Ok(count) => rest = &rest[count..],
        }
    }
    match writer.flush() {
        Ok(()) => Ok(()),
        Err(_) => Err(Failed),
    }
}
