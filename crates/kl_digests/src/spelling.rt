//! Digests as hexadecimal digits.

ghost use Rattle.std.specs.Prelude.{◌≡◌, ◌≢◌, ◌≤◌, ℕ, List, length, Ok, IfSome, IfNone};
ghost use Rattle.hex.specs.Hex.{decode_of};
ghost use Rattle.kl_digests.specs.Digests.{SpellsDigest};

use kl_base::digit_value;
use kl_entry::FileDigest;

/// The fewest digits of a digest.
const LEAST_DIGITS: usize = 2;

/// The most digits of a digest.
const MOST_DIGITS: usize = 128;

/// The digest that 2 to 128 hexadecimal digits in either case spell, an even number of them. `None` where these
/// bytes are not so.
pub fn spelled_digest(digits: &[u8]) -> Option<FileDigest>
    ensures read { IfSome result (λ digest. SpellsDigest digits.now digest) }
    ensures none { IfNone result ((digest : List ℕ) → ¬ (SpellsDigest digits.now digest)) }
{
    if digits.len() < LEAST_DIGITS || digits.len() > MOST_DIGITS {
        return None;
    }
    read_digest(digits)
}

/// The digest that an even number of hexadecimal digits spell, or `None` where these bytes are not so.
fn read_digest(digits: &[u8]) -> Option<FileDigest>
    requires { length digits.now ≤ MOST_DIGITS }
    ensures read { IfSome result (λ digest. decode_of digits.now ≡ Ok digest) }
    ensures none { IfNone result ((digest : List ℕ) → decode_of digits.now ≢ Ok digest) }
{
    if digits.len() % 2 != 0 {
        return None;
    }
    let mut room = [0; MOST_DIGITS / 2];
    let len = digits.len() / 2;
    for i in 0..len {
        let high = digit_value(digits[2 * i])?;
        let low = digit_value(digits[2 * i + 1])?;
        room[i] = high * 16 + low;
    }
    FileDigest::from_bytes(&room[..len])
}
