//! A line of a flat policy.

ghost use Rattle.std.specs.Prelude.{ℕ, List, IfSome, IfNone};
ghost use Rattle.kl_policy.specs.Flat.{FlatLine};

use kl_digests::spelled_digest;
use kl_entry::FileDigest;

/// What a line lists: a path, and a digest that a file there may have.
#[derive(Drop)]
pub struct Listed<'a> {
    pub path: &'a str,
    pub digest: FileDigest,
}

/// The path and the digest of a line: 2 to 128 hexadecimal digits in either case, an even number of
/// them, then two spaces, then a path of at least one byte. `None` where the line is not so.
pub fn read_line(line: &str) -> Option<Listed<'_>>
    ensures read { IfSome result (λ found. FlatLine line.now found.digest found.path.now) }
    ensures none { IfNone result ((digest path : List ℕ) → ¬ (FlatLine line.now digest path)) }
{
    let (digits, rest) = line.split_once(' ')?;
    let path = rest.strip_prefix(' ')?;
    if path.is_empty() {
        return None;
    }
    let digest = spelled_digest(digits.as_bytes())?;
    Some(Listed { path, digest })
}
