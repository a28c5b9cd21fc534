//! Why a line spells no entry.

ghost use Rattle.std.specs.Prelude.{Some};
ghost use Rattle.kl_entry.specs.Texts.{fault_text};

use std::error::Error;
use std::fmt;

/// Why a line spells no entry: the first of these tests that fails.
#[derive(Clone, Copy, Debug, PartialEq, Eq, Hash)]
pub enum LineFault {
    /// The line has more than 8,192 bytes.
    TooLong,
    /// It does not begin with `10` and a space.
    Pcr,
    /// 40 digits of `0-9a-f` and a space do not follow.
    HashText,
    /// `ima-ng` and a space do not follow.
    Template,
    /// A name of 1 to 32 bytes of `a-z0-9_-`, a `:`, an even number from 0 to 128 of digits
    /// `0-9a-f` and a space do not follow.
    Digest,
    /// The path, which is the rest, is empty or has a newline.
    Path,
}

impl fmt::Display for LineFault {
    ghost output = { λ fault. Some (fault_text fault) };

    fn fmt<W: fmt::Write>(&self, f: &mut fmt::Formatter<W>) -> fmt::Result {
        f.write_str(match self {
            LineFault::TooLong => "the line has more than 8192 bytes",
            LineFault::Pcr => "the line is not of PCR 10",
            LineFault::HashText => "the template hash is not 40 hexadecimal digits",
            LineFault::Template => "the template is not ima-ng",
            LineFault::Digest => "the file digest has not the form name:digits",
            LineFault::Path => "the path is empty or has a newline",
        })
    }
}

impl Error for LineFault {}
