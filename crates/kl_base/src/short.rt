//! Bytes that are held in place.

ghost use Rattle.std.specs.Prelude.{◌≡◌, ◌≤◌, length, nat_eq};
ghost use Rattle.std.specs.Cmp.Lexicographic.{pointwise, nat_list_eq_equiv};
ghost use Rattle.std.specs.Cmp.{partial_equiv_from_equiv};

use std::fmt;
use std::marker::Model;

/// At most `ROOM` bytes, held in place so that they can be copied. A contract sees the list of the bytes.
#[derive(Clone, Copy)]
pub struct Short<const ROOM: usize> {
    bytes: [u8; ROOM],
    len: usize,
}

impl<const ROOM: usize> Model for Short<ROOM> {
    ghost use Rattle.std.specs.Prelude.{ℕ, List};
    ghost use Rattle.kl_base.specs.Padded.{IsPadded, bytes_of, in_memory, in_memory-bytes_of};

    ghost Value = { List ℕ };

    ghost view = { bytes_of };

    ghost invariant = { IsPadded ROOM };

    ghost inverse = { in_memory ROOM };

    ghost inverse_ok = { in_memory-bytes_of ROOM };
}

impl<const ROOM: usize> Short<ROOM> {
    /// These bytes.
    pub fn new(bytes: &[u8]) -> Short<ROOM>
        requires { length bytes.now ≤ ROOM }
        ensures { result ≡ bytes.now }
    {
        let mut room = [0; ROOM];
        room[..bytes.len()].copy_from_slice(bytes);
        Short {
            bytes: room,
            len: bytes.len(),
        }
    }

    /// The bytes.
    pub fn as_slice(&self) -> &[u8]
        ensures value { result.now ≡ self.now }
        ensures fits { length self.now ≤ ROOM }
    {
        &self.bytes[..self.len]
    }
}

impl<const ROOM: usize> PartialEq for Short<ROOM> {
    ghost eq = { pointwise nat_eq };

    ghost laws = { partial_equiv_from_equiv nat_list_eq_equiv };

    fn eq(&self, other: &Short<ROOM>) -> bool {
        self.as_slice() == other.as_slice()
    }
}

impl<const ROOM: usize> Eq for Short<ROOM> {
    ghost laws = { nat_list_eq_equiv };
}

/// Lower-case hexadecimal digits.
impl<const ROOM: usize> fmt::Debug for Short<ROOM> {
    fn fmt<W: fmt::Write>(&self, f: &mut fmt::Formatter<W>) -> fmt::Result {
        for byte in self.as_slice() {
            write!(f, "{byte:02x}")?;
        }
        Ok(())
    }
}
