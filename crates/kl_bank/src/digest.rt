//! The digest of a bank.
ghost use Rattle.std.specs.Prelude.{◌≡◌, ◌≤◌, ◌↔◌, IsTrue, length, nat_eq};
ghost use Rattle.std.specs.Cmp.Lexicographic.{pointwise, nat_list_eq_equiv};
ghost use Rattle.std.specs.Cmp.{partial_equiv_from_equiv};

use std::fmt;
use std::marker::Model;

/// The most bytes that a digest of a bank has: those of SHA-384.
const MAX_SIZE: usize = 48;

/// A digest, or a PCR's value: at most 48 bytes. A contract sees it as the list of its bytes.
#[derive(Clone, Copy)]
pub struct Digest {
    bytes: [u8; MAX_SIZE],
    len: u8,
}

impl Model for Digest {
    ghost use Rattle.std.specs.Prelude.{List, ℕ, take};

    ghost Value = { List ℕ };

    ghost use Rattle.kl_bank.specs.Padded.{IsPadded, in_memory, in_memory-take};

    ghost view = { λ d. take d.len d.bytes };

    ghost invariant = { IsPadded };

    ghost inverse = { in_memory };

    ghost inverse_ok = { in_memory-take };
}

impl Digest {
    /// The digest with these bytes.
    pub(crate) fn of(value: &[u8]) -> Digest
        requires { length value.now ≤ 48 }
        ensures { result ≡ value.now }
    {
        let mut bytes = [0; MAX_SIZE];
        bytes[..value.len()].copy_from_slice(value);
        Digest {
            bytes,
            len: value.len() as u8,
        }
    }

    /// Its bytes.
    pub fn as_slice(&self) -> &[u8]
        ensures value { result.now ≡ self.now }
        ensures fits { length self.now ≤ 48 }
    {
        &self.bytes[..self.len as usize]
    }
}

impl PartialEq for Digest {
    ghost eq = { pointwise nat_eq };

    ghost laws = { partial_equiv_from_equiv nat_list_eq_equiv };

    fn eq(&self, other: &Digest) -> bool {
        self.as_slice() == other.as_slice()
    }
}

impl Eq for Digest {
    ghost laws = { nat_list_eq_equiv };
}

/// Lower-case hexadecimal digits.
impl fmt::Debug for Digest {
    fn fmt<W: fmt::Write>(&self, f: &mut fmt::Formatter<W>) -> fmt::Result {
        for byte in self.as_slice() {
            write!(f, "{byte:02x}")?;
        }
        Ok(())
    }
}
