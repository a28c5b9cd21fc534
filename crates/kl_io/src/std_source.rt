//! A reader of std as a source.

ghost use Rattle.std.specs.Prelude.{◌≡◌, None};
ghost use Rattle.kl_io.specs.Adapters.{reader_of};
ghost use Rattle.kl_io.specs.Told.{new_source};

use crate::{Counter, Failed, Source};
use std::io::Read;

/// A source over a reader of std, as standard input, a socket or bytes in memory.
///
/// It counts each call, and each `Err` as a fault. It tells the bytes that the reader is known to have left: of a file,
/// a pipe or a socket nothing.
#[derive(Drop)]
pub struct StdSource<R> {
    inner: R,
    counter: Counter,
}

impl<R: Read> StdSource<R> {
    /// A source over this reader, which was not called yet.
    pub fn new(inner: R) -> StdSource<R>
        ensures reader { reader_of result ≡ inner }

        // As a `Source` it tells what the reader tells, and no call.
        ensures tells { ⟦<StdSource<R> as Source>⟧.told result ≡ new_source (R.remaining inner) }
    {
        StdSource {
            inner,
            counter: Counter::new(),
        }
    }
}

impl<R: Read> Source for StdSource<R> {
    ghost told = { λ s. record { left = R.remaining s.inner; kept = None; place = 0; calls = s.counter } };

    fn faults(&self) -> u64 {
        self.counter.faults()
    }

    fn read(&mut self, buf: &mut [u8]) -> Result<usize, Failed> {
        self.counter.count(self.inner.read(buf))
    }
}
