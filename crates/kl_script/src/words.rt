//! Words, fields and rests of a line.

ghost use Rattle.std.specs.Prelude.{◌≡◌, ◌≢◌, ◌<◌, List, ℕ, IfOk, OnOk, OnErr, Err, map, flat_map, length, ◌++◌, ◌∷◌, encode_utf8};
ghost use Rattle.std.specs.String.{string_bytes};
ghost use Rattle.kl_script.specs.Words.{HasNo, IsEscaped, IsField, IsSplit, StandsFor, field_of, spelling_of};

use crate::fault::CommandFault;
use memchr::memchr;
use std::alloc::{AllocError, Global};

/// What stands before the first separator, an ASCII character, and what stands behind it.
pub(crate) fn cut_at(text: &str, separator: u8) -> Result<(&str, &str), CommandFault>
    requires { separator < 128 }
    ensures found { IfOk result (λ cut. (text.now ≡ cut.0.now ++ separator ∷ cut.1.now) × HasNo separator cut.0.now) }
    ensures none { OnErr result (HasNo separator text.now) }
{
    let bytes = text.as_bytes();
    match memchr(separator, bytes) {
        Some(at) => Ok((&text[..at], &text[at + 1..])),
        None => Err(CommandFault::NoCommand),
    }
}

/// The first words of a text, each before one space, and what stands behind the last of these spaces.
pub(crate) fn split_words<'a>(
    alloc: Global,
    text: &'a str,
    count: usize,
) -> Result<(Vec<&'a str>, &'a str), CommandFault>
    ensures found { IfOk result (λ found. IsSplit text.now count (map (λ w. w.now) found.0.items) found.1.now) }
    ensures none { result ≡ Err CommandFault.NoCommand
        → (words : List (List ℕ)) (rest : List ℕ) → ¬ (IsSplit text.now count words rest) }
{
    let mut words = Vec::with_capacity(alloc, count)?;
    let mut rest = text;
    for _ in 0..count {
        let (word, behind) = cut_at(rest, b' ')?;
        words.push(word)?;
        rest = behind;
    }
    Ok((words, rest))
}

/// What the letter that the text begins with stands for behind a backslash, and what stands behind
/// that letter.
fn escaped(text: &str) -> Result<(char, &str), CommandFault>
    ensures found { IfOk result (λ found. (letter : ℕ) × (text.now ≡ letter ∷ found.1.now) × StandsFor letter found.0) }
    ensures none { OnErr result ((letter byte : ℕ) (behind : List ℕ) → text.now ≡ letter ∷ behind → ¬ (StandsFor letter byte)) }
{
    if let Some(behind) = text.strip_prefix('s') {
        Ok((' ', behind))
    } else if let Some(behind) = text.strip_prefix('n') {
        Ok(('\n', behind))
    } else if let Some(behind) = text.strip_prefix('\\') {
        Ok(('\\', behind))
    } else {
        Err(CommandFault::NoCommand)
    }
}

/// The text that the rest of a line spells: `\s` stands for a space, `\n` for a newline, `\\` for a
/// backslash, and every other byte for itself. The error is `NoCommand` where any other backslash
/// stands in it.
pub fn unescape_rest(alloc: Global, written: &str) -> Result<String, CommandFault>
    ensures found { IfOk result (λ text. IsEscaped written.now (string_bytes text)) }
    ensures none { result ≡ Err CommandFault.NoCommand → (text : List ℕ) → ¬ (IsEscaped written.now text) }
{
    let mut text = String::with_capacity(alloc, written.len())?;
    let mut rest = written;
    while let Ok((stretch, behind)) = cut_at(rest, b'\\') {
        text.push_str(stretch)?;
        let (byte, behind) = escaped(behind)?;
        text.push(byte)?;
        rest = behind;
    }
    text.push_str(rest)?;
    Ok(text)
}

/// The text that a field spells. A field has at least one character and no space, and is read as a
/// rest is, but the field `\0` is the empty text. The error is `NoCommand` where it is no field.
pub fn read_field(alloc: Global, written: &str) -> Result<String, CommandFault>
    ensures found { IfOk result (λ text. IsField written.now (string_bytes text)) }
    ensures none { result ≡ Err CommandFault.NoCommand → (text : List ℕ) → ¬ (IsField written.now text) }
{
    if written == "\\0" {
        return Ok(String::new(alloc));
    }
    if written.is_empty() {
        return Err(CommandFault::NoCommand);
    }
    if written.contains(' ') {
        return Err(CommandFault::NoCommand);
    }
    unescape_rest(alloc, written)
}

/// Writes a character of a field.
fn write_char(field: &mut String, character: char) -> Result<(), AllocError>
    ensures { OnOk result (string_bytes field.new ≡ string_bytes field.old ++ flat_map spelling_of (encode_utf8 character)) }
{
    match character {
        ' ' => field.push_str("\\s"),
        '\n' => field.push_str("\\n"),
        '\\' => field.push_str("\\\\"),
        plain => field.push(plain),
    }
}

/// Writes each character of a text.
fn write_chars(alloc: Global, text: &str) -> Result<String, AllocError>
    ensures { IfOk result (λ field. string_bytes field ≡ flat_map spelling_of text.now) }
{
    let mut field = String::with_capacity(alloc, text.len())?;
    for character in text.chars() {
        write_char(&mut field, character)?;
    }
    Ok(field)
}

/// The field as which a text is written: a space as `\s`, a newline as `\n`, a backslash as `\\`, every other byte as
/// itself, and the empty text as `\0`. What [`read_field`] makes of it is the text.
pub fn write_field(alloc: Global, text: &str) -> Result<String, AllocError>
    ensures written { IfOk result (λ field. string_bytes field ≡ field_of text.now) }
    ensures spells { IfOk result (λ field. IsField (string_bytes field) text.now) }
    ensures lineless { IfOk result (λ field. HasNo 10 (string_bytes field)) }
{
    if text.is_empty() {
        return String::from_str(alloc, "\\0");
    }
    write_chars(alloc, text)
}
