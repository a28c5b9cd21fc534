//! Which entry a line spells.

ghost use Rattle.std.specs.Prelude.{◌≡◌, ◌≢◌, ◌≤◌, ◌↔◌, ℕ, List, Ok, Err, [], ◌∷◌, ◌++◌, length, codes, IfOk, IfErr, IfSome, IfNone, IsTrue};
ghost use Rattle.std.specs.List.{AllPass, prefix_len};
ghost use Rattle.hex.specs.Hex.{encode_lower};
ghost use Rattle.kl_base.specs.Bytes.{IsBytes};
ghost use Rattle.kl_entry.specs.Entries.{EntryFields};
ghost use Rattle.kl_entry.specs.Lines.{is_name_byte, IsHashText, IsName, IsDigestText, IsPath, Spells, IsLineFault};

use crate::digits::decode;
use crate::entry::Entry;
use crate::fault::LineFault;
use crate::file_digest::FileDigest;
use memchr::memchr;

/// The most bytes of a line.
const MAX_LINE: usize = 8192;

/// The digits of a template hash.
const HASH_DIGITS: usize = 40;

/// The most bytes of an algorithm's name.
const MAX_NAME: usize = 32;

/// The entry that a line spells. A line is `10`, a space, 40 digits of the template hash, a space,
/// `ima-ng`, a space, the algorithm's name, a `:`, the digits of the file's digest, a space and the
/// path. Digits are of `0-9a-f`.
///
/// At an error the line spells no entry, and the error is the first test that the line fails.
pub fn read_entry(line: &str) -> Result<Entry<'_>, LineFault>
    ensures found { IfOk result (λ e. Spells line.now e) }
    // What is spelled is read.
    ensures only { (e : EntryFields) → Spells line.now e → result ≡ Ok e }
    ensures fault { IfErr result (λ f. IsLineFault line.now f) }
    // No other fault is the line's.
    ensures alone { (f : LineFault) → IsLineFault line.now f → result ≡ Err f }
{
    first_fault(line)
}

fn first_fault(line: &str) -> Result<Entry<'_>, LineFault>
    ensures found { IfOk result (λ e. Spells line.now e) }
    ensures fault { IfErr result (λ f. IsLineFault line.now f) }
{
    if line.len() > MAX_LINE {
        return Err(LineFault::TooLong);
    }
    let Some(rest) = after_pcr(line) else {
        return Err(LineFault::Pcr);
    };
    let Some(found) = split_hash(rest) else {
        return Err(LineFault::HashText);
    };
    let (hash, rest) = found;
    let Some(rest) = after_template(rest) else {
        return Err(LineFault::Template);
    };
    let Some(found) = split_digest(rest) else {
        return Err(LineFault::Digest);
    };
    let (alg, digest, path) = found;
    if !is_path(path) {
        return Err(LineFault::Path);
    }
    Ok(Entry::new(hash, alg, digest, path))
}

/// What follows `10` and a space.
fn after_pcr(text: &str) -> Option<&str>
    ensures some { IfSome result (λ rest. text.now ≡ codes "10 " ++ rest.now) }
    ensures none { IfNone result ((rest : List ℕ) → ¬ (text.now ≡ codes "10 " ++ rest)) }
{
    match text.as_bytes() {
        [b'1', b'0', b' ', ..] => Some(&text[3..]),
        _ => None,
    }
}

/// What follows `ima-ng` and a space.
fn after_template(text: &str) -> Option<&str>
    ensures some { IfSome result (λ rest. text.now ≡ codes "ima-ng " ++ rest.now) }
    ensures none { IfNone result ((rest : List ℕ) → ¬ (text.now ≡ codes "ima-ng " ++ rest)) }
{
    match text.as_bytes() {
        [b'i', b'm', b'a', b'-', b'n', b'g', b' ', ..] => Some(&text[7..]),
        _ => None,
    }
}

/// The template hash, and what follows its digits and a space.
fn split_hash(text: &str) -> Option<([u8; 20], &str)>
    ensures text { IfSome result (λ found. text.now ≡ encode_lower found.0 ++ 32 ∷ found.1.now) }
    ensures len { IfSome result (λ found. length found.0 ≡ 20) }
    ensures bytes { IfSome result (λ found. IsBytes found.0) }
    ensures none { IfNone result ((digits rest : List ℕ) → IsHashText digits → ¬ (text.now ≡ digits ++ 32 ∷ rest)) }
{
    let bytes = text.as_bytes();
    if bytes.len() <= HASH_DIGITS || bytes[HASH_DIGITS] != b' ' {
        return None;
    }
    let mut hash = [0; HASH_DIGITS / 2];
    if !decode(&bytes[..HASH_DIGITS], &mut hash) {
        return None;
    }
    Some((hash, &text[HASH_DIGITS + 1..]))
}

/// The algorithm's name, the file's digest, and what follows them and a space.
fn split_digest(text: &str) -> Option<(&str, FileDigest, &str)>
    ensures text { IfSome result (λ found. text.now ≡ found.0.now ++ 58 ∷ (encode_lower found.1 ++ 32 ∷ found.2.now)) }
    ensures name { IfSome result (λ found. IsName found.0.now) }
    ensures short { IfSome result (λ found. length found.1 ≤ 64) }
    ensures bytes { IfSome result (λ found. IsBytes found.1) }
    ensures none { IfNone result
        ((name digits rest : List ℕ)
        → IsName name
        → IsDigestText digits
        → ¬ (text.now ≡ name ++ 58 ∷ (digits ++ 32 ∷ rest))) }
{
    let bytes = text.as_bytes();
    let len = name_len(bytes);
    if len == 0 || len > MAX_NAME || len >= bytes.len() || bytes[len] != b':' {
        return None;
    }
    match split_digits(&text[len + 1..]) {
        Some((digest, path)) => Some((&text[..len], digest, path)),
        None => None,
    }
}

/// The file's digest, and what follows its digits and a space.
fn split_digits(text: &str) -> Option<(FileDigest, &str)>
    ensures text { IfSome result (λ found. text.now ≡ encode_lower found.0 ++ 32 ∷ found.1.now) }
    ensures short { IfSome result (λ found. length found.0 ≤ 64) }
    ensures bytes { IfSome result (λ found. IsBytes found.0) }
    ensures none { IfNone result ((digits rest : List ℕ) → IsDigestText digits → ¬ (text.now ≡ digits ++ 32 ∷ rest)) }
{
    let bytes = text.as_bytes();
    let Some(space) = memchr(b' ', bytes) else {
        return None;
    };
    match FileDigest::from_digits(&bytes[..space]) {
        Some(digest) => Some((digest, &text[space + 1..])),
        None => None,
    }
}

/// How many bytes of an algorithm's name stand at the front.
fn name_len(bytes: &[u8]) -> usize
    ensures { result ≡ prefix_len is_name_byte bytes.now }
{
    for (i, byte) in bytes.iter().enumerate() {
        if !stands_in_name(*byte) {
            return i;
        }
    }
    bytes.len()
}

/// Whether the byte is one of `a-z0-9_-`.
fn stands_in_name(byte: u8) -> bool
    ensures { result ≡ is_name_byte byte }
{
    matches!(byte, b'a'..=b'z' | b'0'..=b'9' | b'_' | b'-')
}

/// Whether the text is a path: not empty, and without a newline.
fn is_path(text: &str) -> bool
    ensures { IsTrue result ↔ IsPath text.now }
{
    !text.is_empty() && memchr(b'\n', text.as_bytes()).is_none()
}
