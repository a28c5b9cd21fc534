//! The clock of std.

ghost use Rattle.std.specs.Prelude.{◌≡◌, None};

use crate::Clock;
use std::time::SystemTime;

/// A clock over one of std: the milliseconds since 1970. Where it can't be read, the moment that it gave last comes
/// again, and 0 where there was none. It tells nothing of its moments.
#[derive(Drop)]
pub struct StdClock<R> {
    inner: R,
    last: u64,
}

impl<R: std::rt::Clock> StdClock<R> {
    /// A clock over this one, which was not called yet.
    pub fn new(inner: R) -> StdClock<R>
        ensures tells { ⟦<StdClock<R> as Clock>⟧.told result ≡ None }
    {
        StdClock { inner, last: 0 }
    }
}

impl<R: std::rt::Clock> Clock for StdClock<R> {
    ghost told = { λ _. None };

    fn now(&mut self) -> u64 {
        if let Ok(moment) = SystemTime::now(&self.inner) {
            if let Ok(past) = moment.duration_since(SystemTime::UNIX_EPOCH) {
                self.last = u64::try_from(past.as_millis()).unwrap_or(u64::MAX);
            }
        }
        self.last
    }
}
