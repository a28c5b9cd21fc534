//! Bytes in memory that are handed out from the front.

ghost use Rattle.std.specs.Prelude.{◌≡◌, ◌<◌, [], ◌++◌, length, min, take};

use std::marker::Model;

/// Bytes of which a front has been handed out. A contract sees those that are left.
#[derive(Drop)]
pub struct Stock {
    content: Vec<u8>,
    taken: usize,
}

impl Model for Stock {
    ghost use Rattle.std.specs.Prelude.{◌≤◌, ℕ, List, drop, vec_len};

    ghost Value = { List ℕ };

    ghost view = { λ s. drop s.taken s.content.items };

    ghost invariant = { λ s. s.taken ≤ vec_len s.content };
}

impl Stock {
    /// All of the content is left.
    pub fn new(content: Vec<u8>) -> Stock
        ensures { result ≡ content.items }
    {
        Stock { content, taken: 0 }
    }

    /// How many bytes are left.
    pub fn len(&self) -> usize
        ensures { result ≡ length self.now }
    {
        self.content.len() - self.taken
    }

    /// Hands out as many bytes as are left and there is room for, and says how many.
    pub fn hand_out(&mut self, to: &mut [u8]) -> usize
        ensures count { result ≡ min (length to.old) (length self.old) }
        ensures room { length to.new ≡ length to.old }
        ensures front { self.old ≡ take result to.new ++ self.new }
        ensures end { result ≡ 0 → 0 < length to.new → self.new ≡ [] }
    {
        let count = copy_front(&self.content[self.taken..], to);
        self.taken += count;
        count
    }
}

/// Copies as many bytes as both have, front to front, and says how many.
fn copy_front(from: &[u8], to: &mut [u8]) -> usize
    ensures count { result ≡ min (length to.old) (length from.now) }
    ensures copied { take result to.new ≡ take result from.now }
{
    let count = to.len().min(from.len());
    to[..count].copy_from_slice(&from[..count]);
    count
}
