//! What the program does.

ghost use Rattle.std.specs.Prelude.{◌≡◌, ◌≢◌, ◌↔◌, ◌⊎◌, ◌≤◌, ◌∷◌, [], ℕ, None, map, codes, string_bytes, IsTrue};
ghost use Rattle.kl_core.specs.Books.{BookFields};
ghost use Rattle.kl_session.specs.Outside.{outside};
ghost use Rattle.kl_console.specs.Calls.{FailsAtLast};
ghost use Rattle.kl_console.specs.Run.{moment, EndsAs, IsBroken, IsCutOff, IsDone, IsFaulty, IsOver, IsStatus, LacksMemory, LacksWords, book_or_empty};

use crate::turns::play;
use kl_core::Book;
use kl_exclude::PatternMaker;
use kl_io::{Sink, Source, Words};
use kl_keys::Keys;
use kl_pcr::Steps;
use std::alloc::Global;
use std::sync::ledger::{Blank, Ledger};

/// The number with which the program ends where the words are no command line of it.
const USAGE: u8 = 2;

/// Whether the command line has this word, and no other.
pub fn is_only_word(words: &[String], word: &str) -> bool
    ensures { IsTrue result ↔ (map string_bytes words.now ≡ word.now ∷ []) }
{
    words.len() == 1 && words[0].as_str() == word
}

/// Does what the words of the command line say, and answers the number with which the program ends.
///
/// The words are `run`. The script is read line by line; each line is executed once its newline was read, or the
/// script's end behind it, and what it prints is written by one put before the next line is executed. A line that
/// prints nothing, as a comment, takes no put. Once the script ends, or the run, the polls that are open are dropped, and the
/// releases that are open withdrawn.
///
/// | number | where |
/// |---|---|
/// | 0 | the script was read to its end, each line was executed, and each text was written |
/// | 2 | the words are other ones; nothing was read, written, asked, drawn or counted |
/// | 3 | a line spells no command; `fault line <n>` was written last |
/// | 4 | the script met a fault |
/// | 5 | the output met a fault |
/// | 6 | a nonce or a secret was to be drawn, and could not be |
/// | 8 | a line has more than 16,777,216 bytes, or the script more than 1,099,511,627,776; `fault line <n>` was written last |
/// | 70 | memory ran out |
pub fn run<S: Source, K: Sink, Y: Keys, P: PatternMaker, N: Words, L: Ledger>(
    alloc: Global,
    words: &[String],
    script: &mut S,
    out: &mut K,
    keys: &mut Y,
    patterns: &mut P,
    nonces: &mut N,
    steps: &mut Steps<L>,
) -> u8
    // 0: all of the script was read, each line was executed, and its text was written by one put, or by none where it is empty.
    ensures done { result ≡ 0 → (B : BookFields) × IsDone
        (moment (S.told script.old) (K.told out.old) (outside (Y.told keys.old) (N.told nonces.old) (P.told patterns.old) steps.old))
        (moment (S.told script.new) (K.told out.new) (outside (Y.told keys.new) (N.told nonces.new) (P.told patterns.new) steps.new)) B }
    // 2: the words are other ones.
    ensures usage { (result ≡ 2) ↔ (map string_bytes words.now ≢ codes "run" ∷ []) }
    // 3: the texts of the lines before the first that spells no command were written, and then which that is, by one put.
    ensures fault { result ≡ 3 → (B : BookFields) × IsFaulty
        (moment (S.told script.old) (K.told out.old) (outside (Y.told keys.old) (N.told nonces.old) (P.told patterns.old) steps.old))
        (moment (S.told script.new) (K.told out.new) (outside (Y.told keys.new) (N.told nonces.new) (P.told patterns.new) steps.new)) B }
    // 4: the texts of the lines before were written. A line that was read in part was not executed.
    ensures read_fault { result ≡ 4 → (B : BookFields) × IsBroken
        (moment (S.told script.old) (K.told out.old) (outside (Y.told keys.old) (N.told nonces.old) (P.told patterns.old) steps.old))
        (moment (S.told script.new) (K.told out.new) (outside (Y.told keys.new) (N.told nonces.new) (P.told patterns.new) steps.new)) B }
    // The last read of the script met a fault at 4, and no other did.
    ensures read_cause { FailsAtLast (S.told script.old).calls (S.told script.new).calls (result ≡ 4) }
    // 5: the texts of the lines before were written, and by the last put a front of what was to be printed next.
    ensures write_fault { result ≡ 5 → (B : BookFields) × IsCutOff
        (moment (S.told script.old) (K.told out.old) (outside (Y.told keys.old) (N.told nonces.old) (P.told patterns.old) steps.old))
        (moment (S.told script.new) (K.told out.new) (outside (Y.told keys.new) (N.told nonces.new) (P.told patterns.new) steps.new)) B }
    // The last put met a fault at 5, and no other did.
    ensures write_cause { FailsAtLast (K.told out.old).calls (K.told out.new).calls (result ≡ 5) }
    // 6: the texts of the lines before were written; the next begins a poll whose nonce, or registers an agent whose secret, could not be drawn.
    ensures nonce_fault { result ≡ 6 → (B : BookFields) × LacksWords
        (moment (S.told script.old) (K.told out.old) (outside (Y.told keys.old) (N.told nonces.old) (P.told patterns.old) steps.old))
        (moment (S.told script.new) (K.told out.new) (outside (Y.told keys.new) (N.told nonces.new) (P.told patterns.new) steps.new)) B }
    // 8: the texts of the lines before were written, and then which line is too long, or takes the script past its limit.
    ensures over { result ≡ 8 → (B : BookFields) × IsOver
        (moment (S.told script.old) (K.told out.old) (outside (Y.told keys.old) (N.told nonces.old) (P.told patterns.old) steps.old))
        (moment (S.told script.new) (K.told out.new) (outside (Y.told keys.new) (N.told nonces.new) (P.told patterns.new) steps.new)) B }
    // 70: memory ran out; the texts of the lines before were written, each whole.
    ensures memory { result ≡ 70 → (B : BookFields) × LacksMemory
        (moment (S.told script.old) (K.told out.old) (outside (Y.told keys.old) (N.told nonces.old) (P.told patterns.old) steps.old))
        (moment (S.told script.new) (K.told out.new) (outside (Y.told keys.new) (N.told nonces.new) (P.told patterns.new) steps.new)) B }
    // There are no other numbers.
    ensures statuses { IsStatus result }
    // At 2 nothing was read, written, asked, drawn or counted.
    ensures unread { result ≡ 2 → script.new ≡ script.old }
    ensures unwritten { result ≡ 2 → out.new ≡ out.old }
    ensures unasked { result ≡ 2 → (keys.new ≡ keys.old) × (patterns.new ≡ patterns.old) × (nonces.new ≡ nonces.old) × (steps.new ≡ steps.old) }
    ensures script_place { (S.told script.new).place ≡ (S.told script.old).place }
    ensures out_place { (K.told out.new).place ≡ (K.told out.old).place }
{
    let (status, _book) = run_kept(alloc, words, script, out, keys, patterns, nonces, steps);
    status
}

/// The same, with the book as it is at the end, its open polls dropped and its open releases withdrawn; no book where the
/// words are others, or where there was no memory for a session.
pub fn run_kept<S: Source, K: Sink, Y: Keys, P: PatternMaker, N: Words, L: Ledger>(
    alloc: Global,
    words: &[String],
    script: &mut S,
    out: &mut K,
    keys: &mut Y,
    patterns: &mut P,
    nonces: &mut N,
    steps: &mut Steps<L>,
) -> (u8, Option<Book>)
    ensures ends { EndsAs (moment (S.told script.old) (K.told out.old) (outside (Y.told keys.old) (N.told nonces.old) (P.told patterns.old) steps.old))
        (moment (S.told script.new) (K.told out.new) (outside (Y.told keys.new) (N.told nonces.new) (P.told patterns.new) steps.new)) result.0 (book_or_empty result.1) }
    ensures none { result.1 ≡ None → (result.0 ≡ 2) ⊎ (result.0 ≡ 70) }
    ensures unbegun { result.0 ≡ 2 → result.1 ≡ None }
    ensures usage { (result.0 ≡ 2) ↔ (map string_bytes words.now ≢ codes "run" ∷ []) }
    ensures statuses { IsStatus result.0 }
    // Where there is no book nothing was read, written, asked, drawn or counted.
    ensures unread { result.1 ≡ None → script.new ≡ script.old }
    ensures unwritten { result.1 ≡ None → out.new ≡ out.old }
    ensures unasked { result.1 ≡ None → (keys.new ≡ keys.old) × (patterns.new ≡ patterns.old) × (nonces.new ≡ nonces.old) × (steps.new ≡ steps.old) }
    ensures script_place { (S.told script.new).place ≡ (S.told script.old).place }
    ensures out_place { (K.told out.new).place ≡ (K.told out.old).place }
{
    if !is_only_word(words, "run") {
        return (USAGE, None);
    }
    let (end, book) = play(alloc, script, out, keys, patterns, nonces, steps);
    (end.status(), book)
}

/// The same as `run`, where nobody looks at the count of steps: it makes one of its own, from a blank.
///
/// What `run` says of the words, the numbers and their causes is said here too.
pub fn run_counted<S: Source, K: Sink, Y: Keys, P: PatternMaker, N: Words, L: Ledger>(
    alloc: Global,
    words: &[String],
    script: &mut S,
    out: &mut K,
    keys: &mut Y,
    patterns: &mut P,
    nonces: &mut N,
    blank: Blank,
) -> u8
    requires name { blank.name ≡ L.name }
    requires parts { blank.parts ≡ L.parts }
    requires some { 1 ≤ blank.parts }
    ensures ends { (steps : ℕ) × (B : BookFields) × EndsAs (moment (S.told script.old) (K.told out.old) (outside (Y.told keys.old) (N.told nonces.old) (P.told patterns.old) 0))
        (moment (S.told script.new) (K.told out.new) (outside (Y.told keys.new) (N.told nonces.new) (P.told patterns.new) steps)) result B }
    ensures usage { (result ≡ 2) ↔ (map string_bytes words.now ≢ codes "run" ∷ []) }
    ensures statuses { IsStatus result }
    ensures unread { result ≡ 2 → script.new ≡ script.old }
    ensures unwritten { result ≡ 2 → out.new ≡ out.old }
    ensures unasked { result ≡ 2 → (keys.new ≡ keys.old) × (patterns.new ≡ patterns.old) × (nonces.new ≡ nonces.old) }
    ensures script_place { (S.told script.new).place ≡ (S.told script.old).place }
    ensures out_place { (K.told out.new).place ≡ (K.told out.old).place }
{
    let mut steps = Steps::<L>::of(blank);
    let (status, _book) = run_kept(
        alloc, words, script, out, keys, patterns, nonces, &mut steps,
    );
    status
}
