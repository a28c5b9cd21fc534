//! The lines of a list, one after the other.

ghost use Rattle.std.specs.Prelude.{◌≡◌};

use memchr::memchr;
use std::marker::Model;

/// The lines of a text that are left, which is what contracts see of it.
#[derive(Debug, Drop)]
pub struct Lines<'a> {
    left: &'a str,
}

impl<'a> Model for Lines<'a> {
    ghost use Rattle.std.specs.Prelude.{ℕ, List};

    ghost Value = { List ℕ };

    ghost view = { λ l. l.left.now };
}

impl<'a> Lines<'a> {
    pub(crate) fn over(text: &'a str) -> Lines<'a>
        ensures { result ≡ text.entry.now }
    {
        Lines { left: text }
    }
}

impl<'a> Iterator for Lines<'a> {
    ghost use Rattle.std.specs.Iterator.{YieldsFirstBy, item_count};
    ghost use Rattle.kl_entry.specs.Lines.{lines_of};

    type Item = &'a str;

    ghost next_gives = { YieldsFirstBy (λ line. line.now) lines_of };

    ghost remaining = { item_count lines_of };

    fn next(&mut self) -> Option<&'a str> {
        let left = self.left;
        match memchr(b'\n', left.as_bytes()) {
            Some(at) => {
                self.left = &left[at + 1..];
                Some(&left[..at])
            }
            None if left.is_empty() => None,
            None => {
                self.left = "";
                Some(left)
            }
        }
    }
}
