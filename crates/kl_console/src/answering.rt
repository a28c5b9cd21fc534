//! What a line does, and what is written of that.

ghost use Rattle.std.specs.Prelude.{◌≡◌, ◌≢◌, ◌≤◌, Err, length};
ghost use Rattle.kl_script.specs.Commands.{fields};
ghost use Rattle.kl_session.specs.Outside.{outside};
ghost use Rattle.kl_session.specs.Calls.{SessionFields, Stands};
ghost use Rattle.kl_console.specs.Calls.{FailsAtLast};
ghost use Rattle.kl_console.specs.Lines.{line_limit};
ghost use Rattle.kl_console.specs.Inner.Turns.{Answers, Performs};

use crate::ending::End;
use crate::line_reader::LineReader;
use crate::printing::{complain, print};
use kl_exclude::PatternMaker;
use kl_io::{Sink, Words};
use kl_keys::Keys;
use kl_pcr::Steps;
use kl_script::{Command, CommandFault, read_command};
use kl_session::Session;
use std::alloc::Global;
use std::sync::ledger::Ledger;

/// Does what the line says that was read last, and writes what that prints. Where the line spells no command it
/// writes that the line of this number, from 1, is bad.
///
/// The memory of a long line is let go once its command was read.
///
/// # Errors
/// How the run ends: `Fault`, `WriteFault`, `NoNonce` or `Memory`.
pub fn answer<K: Sink, Y: Keys, P: PatternMaker, N: Words, L: Ledger>(
    alloc: Global,
    number: u64,
    session: &mut Session,
    reader: &mut LineReader,
    out: &mut K,
    keys: &mut Y,
    patterns: &mut P,
    nonces: &mut N,
    steps: &mut Steps<L>,
) -> Result<(), End>
    requires { length reader.old.line ≤ line_limit }
    ensures answers { (s : SessionFields) → Stands session.old s → (s' : SessionFields) × Stands session.new s'
        × Answers number reader.old.line (outside (Y.told keys.old) (N.told nonces.old) (P.told patterns.old) steps.old)
        (outside (Y.told keys.new) (N.told nonces.new) (P.told patterns.new) steps.new) s s' (K.told out.old) (K.told out.new) result }
    ensures ahead { reader.new.ahead ≡ reader.old.ahead }
    ensures passed { reader.new.passed ≡ reader.old.passed }
    ensures write { FailsAtLast (K.told out.old).calls (K.told out.new).calls (result ≡ Err End.WriteFault) }
    ensures read { result ≢ Err End.ReadFault }
    ensures place { (K.told out.new).place ≡ (K.told out.old).place }
{
    match read_command(alloc, reader.line()) {
        Ok(command) => {
            reader.let_go(alloc);
            perform(alloc, session, command, out, keys, patterns, nonces, steps)
        },
        Err(CommandFault::NoCommand) => {
            complain(alloc, number, out)?;
            Err(End::Fault)
        },
        Err(CommandFault::Memory) => Err(End::Memory),
    }
}

/// Does what a command says, and writes what that prints.
///
/// # Errors
/// How the run ends: `WriteFault`, `NoNonce` or `Memory`.
fn perform<K: Sink, Y: Keys, P: PatternMaker, N: Words, L: Ledger>(
    alloc: Global,
    session: &mut Session,
    command: Command,
    out: &mut K,
    keys: &mut Y,
    patterns: &mut P,
    nonces: &mut N,
    steps: &mut Steps<L>,
) -> Result<(), End>
    ensures performs { (s : SessionFields) → Stands session.old s → (s' : SessionFields) × Stands session.new s'
        × Performs (outside (Y.told keys.old) (N.told nonces.old) (P.told patterns.old) steps.old) (outside (Y.told keys.new) (N.told nonces.new) (P.told patterns.new) steps.new)
        s s' (fields command) (K.told out.old) (K.told out.new) result }
    ensures write { FailsAtLast (K.told out.old).calls (K.told out.new).calls (result ≡ Err End.WriteFault) }
    ensures read { result ≢ Err End.ReadFault }
    ensures place { (K.told out.new).place ≡ (K.told out.old).place }
{
    let text = session.obey(alloc, command, keys, patterns, nonces, steps)?;
    print(out, text.as_str())
}
