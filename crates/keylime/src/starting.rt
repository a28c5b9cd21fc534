//! What the words of the command line come to.

ghost use Rattle.std.specs.Prelude.{◌≡◌, ◌≢◌, ◌≤◌, ◌∷◌, [], ℕ, map, codes, string_bytes, IfOk, IfErr};
ghost use Rattle.kl_core.specs.Books.{BookFields};
ghost use Rattle.kl_session.specs.Outside.{outside};
ghost use Rattle.kl_console.specs.Run.{moment, EndsAs, IsStatus};
ghost use Rattle.keylime.specs.Starting.{Says, IsOtherWords, status_without};

use kl_console::{is_only_word, run_counted};
use kl_exclude::PatternMaker;
use kl_io::{Sink, Source, Words};
use kl_keys::Keys;
use std::alloc::Global;
use std::sync::ledger::{Blank, Ledger};

/// What `--help` prints.
const HELP: &str =
    "keylime judges what agents' machines measured, by their TPMs' quotes and by a policy for each.

usage: keylime run < script

  run        reads a script, and prints a line for each command of it
  --help     prints this text
  --version  prints the version

A line of a script is a command, or is empty or begins with # and prints nothing. The commands are

  add <agent> <contact> <bank> <mask> <statics> <ak> <v> <kind> <policy>
  replace <agent> <kind> <policy>   reactivate <agent>
  stop <agent>                      remove <agent>
  begin <agent> [<nonce>]           reply <poll> <bank> <start> <public> <quote> <list>
  lose <poll>                       state <agent>
  now <milliseconds>                pick
  notice                            noticed <number>
  release <agent>                   settle <release> arrived|missed
  register <agent> <ek> <ak> <contact>
  activate <agent> <tag>            record <agent>
  records                           forget <agent>

A kind of policy is flat or json. A begin without a nonce draws one, and a register a secret. examples/ has scripts, and beside each what it prints; docs/FORMATS.md has the formats.

status
   0  the script was read to its end, and every line was executed and printed
   2  the words are other ones; nothing was read or written
   3  a line spells no command; `fault line <n>` was written last
   4  reading the script failed
   5  writing failed
   6  a nonce or a secret could not be drawn
   8  a line has over 16,777,216 bytes, or the script over 1,099,511,627,776; `fault line <n>` was written last
  70  memory ran out
";

/// What `--version` prints.
const VERSION: &str = "keylime 0.1.0\n";

/// The status where all of a text was written.
const DONE: u8 = 0;

/// The status where the words are no command line, as where they are no text.
const USAGE: u8 = 2;

/// The status where writing failed.
const WRITE_FAULT: u8 = 5;

/// The status where memory ran out.
const MEMORY: u8 = 70;

/// Why there are no words.
#[derive(Clone, Copy, Debug, PartialEq, Eq)]
pub enum NoWords {
    /// They are no text.
    NoText,
    /// Memory ran out.
    Memory,
}

/// Does what the words of the command line say, where there are any, and answers the number with which the program ends.
///
/// `--help` and `--version`, each as the only word, are answered on the output. All other words are handed over to
/// `kl_console::run_counted`, which knows the word `run` alone.
pub fn start<S: Source, K: Sink, Y: Keys, P: PatternMaker, N: Words, L: Ledger>(
    alloc: Global,
    words: Result<Vec<String>, NoWords>,
    script: &mut S,
    out: &mut K,
    keys: &mut Y,
    patterns: &mut P,
    nonces: &mut N,
    blank: Blank,
) -> u8
    requires name { blank.name ≡ L.name }
    requires parts { blank.parts ≡ L.parts }
    requires some { 1 ≤ blank.parts }
    ensures help { IfOk words (λ w. map string_bytes w.items ≡ codes "--help" ∷ [] → Says (K.told out.old) (K.told out.new) HELP.now result) }
    ensures version { IfOk words (λ w. map string_bytes w.items ≡ codes "--version" ∷ [] → Says (K.told out.old) (K.told out.new) VERSION.now result) }
    ensures run { IfOk words (λ w. map string_bytes w.items ≡ codes "run" ∷ []
        → ((steps : ℕ) × (B : BookFields) × EndsAs (moment (S.told script.old) (K.told out.old) (outside (Y.told keys.old) (N.told nonces.old) (P.told patterns.old) 0))
        (moment (S.told script.new) (K.told out.new) (outside (Y.told keys.new) (N.told nonces.new) (P.told patterns.new) steps)) result B) × (result ≢ 2)) }
    ensures other { IfOk words (λ w. IsOtherWords (map string_bytes w.items) → result ≡ 2) }
    // There are no other numbers.
    ensures statuses { IsStatus result }
    // For words other than `run` nothing is read, asked or drawn, and at 2 nothing is written.
    ensures unread { IfOk words (λ w. map string_bytes w.items ≢ codes "run" ∷ [] → script.new ≡ script.old) }
    ensures unasked { IfOk words (λ w. map string_bytes w.items ≢ codes "run" ∷ [] → keys.new ≡ keys.old) }
    ensures unmade { IfOk words (λ w. map string_bytes w.items ≢ codes "run" ∷ [] → patterns.new ≡ patterns.old) }
    ensures undrawn { IfOk words (λ w. map string_bytes w.items ≢ codes "run" ∷ [] → nonces.new ≡ nonces.old) }
    ensures unwritten { result ≡ 2 → out.new ≡ out.old }
    ensures none { IfErr words (λ why. (result ≡ status_without why) × (script.new ≡ script.old) × (out.new ≡ out.old)
        × (keys.new ≡ keys.old) × (patterns.new ≡ patterns.old) × (nonces.new ≡ nonces.old)) }
{
    match words {
        Ok(words) => answer::<_, _, _, _, _, L>(
            alloc,
            words.as_slice(),
            script,
            out,
            keys,
            patterns,
            nonces,
            blank,
        ),
        Err(NoWords::NoText) => USAGE,
        Err(NoWords::Memory) => MEMORY,
    }
}

/// Does what these words say.
fn answer<S: Source, K: Sink, Y: Keys, P: PatternMaker, N: Words, L: Ledger>(
    alloc: Global,
    words: &[String],
    script: &mut S,
    out: &mut K,
    keys: &mut Y,
    patterns: &mut P,
    nonces: &mut N,
    blank: Blank,
) -> u8
    requires name { blank.name ≡ L.name }
    requires parts { blank.parts ≡ L.parts }
    requires some { 1 ≤ blank.parts }
    ensures help { map string_bytes words.now ≡ codes "--help" ∷ [] → Says (K.told out.old) (K.told out.new) HELP.now result }
    ensures version { map string_bytes words.now ≡ codes "--version" ∷ [] → Says (K.told out.old) (K.told out.new) VERSION.now result }
    ensures run { map string_bytes words.now ≡ codes "run" ∷ []
        → ((steps : ℕ) × (B : BookFields) × EndsAs (moment (S.told script.old) (K.told out.old) (outside (Y.told keys.old) (N.told nonces.old) (P.told patterns.old) 0))
        (moment (S.told script.new) (K.told out.new) (outside (Y.told keys.new) (N.told nonces.new) (P.told patterns.new) steps)) result B) × (result ≢ 2) }
    ensures other { IsOtherWords (map string_bytes words.now) → result ≡ 2 }
    ensures statuses { IsStatus result }
    ensures unread { map string_bytes words.now ≢ codes "run" ∷ [] → script.new ≡ script.old }
    ensures unasked { map string_bytes words.now ≢ codes "run" ∷ [] → keys.new ≡ keys.old }
    ensures unmade { map string_bytes words.now ≢ codes "run" ∷ [] → patterns.new ≡ patterns.old }
    ensures undrawn { map string_bytes words.now ≢ codes "run" ∷ [] → nonces.new ≡ nonces.old }
    ensures unwritten { result ≡ 2 → out.new ≡ out.old }
{
    if is_only_word(words, "--help") {
        return say(out, HELP);
    }
    if is_only_word(words, "--version") {
        return say(out, VERSION);
    }
    run_counted::<_, _, _, _, _, L>(alloc, words, script, out, keys, patterns, nonces, blank)
}

/// Writes a text, and answers the status of that.
fn say<K: Sink>(out: &mut K, text: &str) -> u8
    ensures { Says (K.told out.old) (K.told out.new) text.now result }
{
    match out.put(text.as_bytes()) {
        Ok(()) => DONE,
        Err(_) => WRITE_FAULT,
    }
}
