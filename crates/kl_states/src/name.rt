ghost use Rattle.std.specs.Prelude.{◌≡◌, ◌≤◌, length};
ghost use Rattle.std.specs.Str.{IsAscii};

use kl_base::Short;
use std::marker::Model;

/// The most bytes that a name has.
pub const MAX_LEN: usize = 64;

/// At most 64 ASCII bytes, held in place so that a name can be copied.
#[derive(Clone, Copy, Debug)]
pub struct Name {
    short: Short<MAX_LEN>,
}

impl Model for Name {
    ghost use Rattle.std.specs.Prelude.{ℕ, List};
    ghost use Rattle.std.specs.Str.{IsAscii};

    ghost Value = { List ℕ };

    ghost view = { λ name. name.short };

    ghost invariant = { λ name. IsAscii name.short };

    ghost inverse = { λ bytes. record { short = bytes } };
}

impl Name {
    /// The name with these bytes.
    pub fn new(text: &[u8]) -> Name
        requires fits { length text.now ≤ 64 }
        requires ascii { IsAscii text.now }
        ensures { result ≡ text.now }
    {
        Name {
            short: Short::new(text),
        }
    }

    /// Its text.
    pub fn as_str(&self) -> &str
        ensures { result.now ≡ self.now }
    {
        let bytes = self.short.as_slice();
        // The type keeps that the bytes are ASCII.
        unsafe { str::from_utf8_unchecked(bytes) }
    }
}
