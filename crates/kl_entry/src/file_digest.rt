//! The digest of a file.

ghost use Rattle.std.specs.Prelude.{◌≡◌, ◌≤◌, ◌<◌, ◌%◌, ◌↔◌, length, IfSome, IfNone, IsTrue};
ghost use Rattle.hex.specs.Hex.{encode_lower};
ghost use Rattle.kl_base.specs.Bytes.{IsBytes};
ghost use Rattle.kl_entry.specs.Lines.{IsDigestText};

use crate::digits::decode;
use kl_base::Short;
use std::marker::Model;

/// The most bytes of a file's digest.
const ROOM: usize = 64;

/// The most digits of its text.
const MAX_DIGITS: usize = 128;

/// The digest of a file: at most 64 bytes, which contracts see as a list.
#[derive(Clone, Copy, Debug)]
pub struct FileDigest {
    bytes: Short<64>,
}

impl Model for FileDigest {
    ghost use Rattle.std.specs.Prelude.{ℕ, List};

    ghost Value = { List ℕ };

    ghost view = { λ d. d.bytes };

    ghost inverse = { λ bytes. record { bytes = bytes } };
}

impl FileDigest {
    /// The digest of these bytes, or None where they are more than 64.
    pub fn from_bytes(bytes: &[u8]) -> Option<FileDigest>
        ensures some { IfSome result (λ d. d ≡ bytes.now) }
        ensures none { IfNone result (64 < length bytes.now) }
        ensures short { IfSome result (λ _. length bytes.now ≤ 64) }
    {
        if bytes.len() > ROOM {
            return None;
        }
        Some(FileDigest {
            bytes: Short::new(bytes),
        })
    }

    /// The digest of which this is the text, or None where it is not an even number of at most 128
    /// digits of `0-9a-f`. A digest may be empty.
    pub(crate) fn from_digits(text: &[u8]) -> Option<FileDigest>
        ensures digits { IfSome result (λ digest. text.now ≡ encode_lower digest) }
        ensures short { IfSome result (λ digest. length digest ≤ 64) }
        ensures bytes { IfSome result (λ digest. IsBytes digest) }
        ensures none { IfNone result (¬ (IsDigestText text.now)) }
    {
        if !is_digest_len(text.len()) {
            return None;
        }
        let mut room = [0; ROOM];
        let bytes = &mut room[..text.len() / 2];
        if !decode(text, bytes) {
            return None;
        }
        Some(FileDigest {
            bytes: Short::new(bytes),
        })
    }

    /// The bytes of the digest.
    pub fn as_slice(&self) -> &[u8]
        ensures value { result.now ≡ self.now }
        ensures short { length self.now ≤ 64 }
    {
        self.bytes.as_slice()
    }
}

/// Whether the text of a digest may have so many digits: an even number from 0 to 128.
fn is_digest_len(digits: usize) -> bool
    ensures { IsTrue result ↔ ((digits % 2 ≡ 0) × (digits ≤ 128)) }
{
    digits % 2 == 0 && digits <= MAX_DIGITS
}
