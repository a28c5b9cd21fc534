//! The template data of an entry in one piece.

ghost use Rattle.std.specs.Prelude.{◌≡◌, ◌+◌, ◌<◌, ◌≤◌, ◌^◌, [], ◌∷◌, ◌++◌, length, take};
ghost use Rattle.kl_entry.specs.Entries.{data_of};

use crate::entry::Entry;
use std::marker::Model;

/// More than the template data of any entry has.
const ROOM: usize = 16_512;

/// A room in which the template data of one entry after the other is laid out, so that each is
/// hashed by one call. Contracts see it as the bytes that are laid out.
#[derive(Drop)]
pub struct EntryData {
    bytes: [u8; ROOM],
    len: usize,
}

impl Model for EntryData {
    ghost use Rattle.std.specs.Prelude.{ℕ, List};

    ghost Value = { List ℕ };

    ghost use Rattle.kl_entry.specs.Inner.Rooms.{IsInRoom, used};

    ghost view = { used };

    ghost invariant = { IsInRoom };
}

impl EntryData {
    /// An empty room.
    pub fn new() -> EntryData
        ensures { result ≡ [] }
    {
        EntryData {
            bytes: [0; ROOM],
            len: 0,
        }
    }

    /// A room with the template data of this entry.
    pub fn of(entry: &Entry<'_>) -> EntryData
        ensures { result ≡ data_of entry.now }
    {
        let mut data = EntryData::new();
        data.lay_out(entry);
        data
    }

    /// Lays out the template data of the entry in place of what was laid out before.
    pub fn lay_out(&mut self, entry: &Entry<'_>)
        ensures { self.new ≡ data_of entry.now }
    {
        let alg = entry.alg().as_bytes();
        let digest = entry.digest().as_slice();
        let path = entry.path().as_bytes();
        let room = &mut self.bytes;
        let digest_len = (alg.len() + 2 + digest.len()) as u32;
        let path_len = (path.len() + 1) as u32;
        let at = put(room, 0, &digest_len.to_le_bytes());
        let at = put(room, at, alg);
        let at = put(room, at, b":\0");
        let at = put(room, at, digest);
        let at = put(room, at, &path_len.to_le_bytes());
        let at = put(room, at, path);
        self.len = put(room, at, b"\0");
    }

    /// The bytes that are laid out.
    pub fn as_slice(&self) -> &[u8]
        ensures { result.now ≡ self.now }
    {
        &self.bytes[..self.len]
    }
}

/// Writes a piece behind the first bytes of the room, and gives the place behind the piece.
fn put(room: &mut [u8; ROOM], at: usize, piece: &[u8]) -> usize
    requires fits { at + length piece.now ≤ 16512 }
    requires room { length room.old ≡ 16512 }
    ensures place { result ≡ at + length piece.now }
    ensures bytes { take result room.new ≡ take at room.old ++ piece.now }
    ensures room { length room.new ≡ 16512 }
{
    let end = at + piece.len();
    room[at..end].copy_from_slice(piece);
    end
}
