//! The random bytes of std as words.

ghost use Rattle.std.specs.Prelude.{◌≡◌, length, IsErrOf, None};
ghost use Rattle.kl_io.specs.Adapters.{draws_of};
ghost use Rattle.kl_io.specs.Calls.{Counts};
ghost use Rattle.kl_io.specs.Told.{new_words};

use crate::{Counter, Words, WordsError};
use std::random::RandomSource;

/// Words over a source of random bytes of std, as the operating system's.
///
/// It counts each call, and each `Err` as a fault. It tells nothing of the bytes.
#[derive(Drop)]
pub struct StdWords<R> {
    inner: R,
    counter: Counter,
}

impl<R: RandomSource> StdWords<R> {
    /// Words over this source, which was not called yet.
    pub fn new(inner: R) -> StdWords<R>
        // As `Words` they tell no bytes, and no call.
        ensures tells { ⟦<StdWords<R> as Words>⟧.told result ≡ new_words None }
    {
        StdWords {
            inner,
            counter: Counter::new(),
        }
    }
}

impl<R: RandomSource> Words for StdWords<R> {
    ghost told = { λ w. record { left = None; calls = w.counter } };

    fn faults(&self) -> u64 {
        self.counter.faults()
    }

    fn fill(&mut self, buf: &mut [u8]) -> Result<(), WordsError>
        ensures room { length buf.new ≡ length buf.old }
        ensures counted { Counts (draws_of self.old) (draws_of self.new) (IsErrOf result WordsError.Failed) }

        // It never ends.
        ensures endless { ¬ (IsErrOf result WordsError.Ended) }
    {
        Ok(self.counter.count(self.inner.fill_bytes(buf))?)
    }
}
