//! One turn of a run, and all of them.

ghost use Rattle.std.specs.Prelude.{◌≡◌, ◌<◌, Err, None, OnOk};
ghost use Rattle.kl_session.specs.Calls.{SessionFields, Stands, empty};
ghost use Rattle.kl_session.specs.Outside.{outside};
ghost use Rattle.kl_console.specs.Calls.{FailsAtLast};
ghost use Rattle.kl_console.specs.Run.{Moment, moment, book_or_empty};
ghost use Rattle.kl_console.specs.Inner.Turns.{Ends, EndsBy, Played, PlaysOn};

use crate::answering::answer;
use crate::ending::End;
use crate::line_reader::{Found, LineReader, ReadError};
use crate::printing::complain;
use kl_core::Book;
use kl_exclude::PatternMaker;
use kl_io::{Sink, Source, Words};
use kl_keys::Keys;
use kl_pcr::Steps;
use kl_session::Session;
use std::alloc::Global;
use std::sync::ledger::Ledger;

/// Takes the next turn: reads a line, whose number this is, from 1, does what it says, and writes what that prints.
///
/// # Errors
/// How the run ends. It ends well behind the script's last line.
fn turn<S: Source, K: Sink, Y: Keys, P: PatternMaker, N: Words, L: Ledger>(
    alloc: Global,
    number: u64,
    session: &mut Session,
    reader: &mut LineReader,
    script: &mut S,
    out: &mut K,
    keys: &mut Y,
    patterns: &mut P,
    nonces: &mut N,
    steps: &mut Steps<L>,
) -> Result<(), End>
    ensures plays { (before : Moment) (s : SessionFields) → Stands session.old s
        → Played before (moment (S.told script.old) (K.told out.old) (outside (Y.told keys.old) (N.told nonces.old) (P.told patterns.old) steps.old))
        reader.old s number
        → (s' : SessionFields) × Stands session.new s'
        × PlaysOn before (moment (S.told script.new) (K.told out.new) (outside (Y.told keys.new) (N.told nonces.new) (P.told patterns.new) steps.new))
        reader.new s' number result }
    ensures read { FailsAtLast (S.told script.old).calls (S.told script.new).calls (result ≡ Err End.ReadFault) }
    ensures write { FailsAtLast (K.told out.old).calls (K.told out.new).calls (result ≡ Err End.WriteFault) }
    ensures later { OnOk result (reader.old.passed < reader.new.passed) }
    ensures places { ((S.told script.new).place ≡ (S.told script.old).place)
        × ((K.told out.new).place ≡ (K.told out.old).place) }
{
    match reader.next(script) {
        Ok(Found::Line) => answer(
            alloc, number, session, reader, out, keys, patterns, nonces, steps,
        ),
        Ok(Found::Last) => {
            answer(
                alloc, number, session, reader, out, keys, patterns, nonces, steps,
            )?;
            Err(End::Done)
        },
        Ok(Found::End) => Err(End::Done),
        Ok(Found::TooLong) => {
            complain(alloc, number, out)?;
            Err(End::Over)
        },
        Err(ReadError::Failed) => Err(End::ReadFault),
        Err(ReadError::Memory) => Err(End::Memory),
    }
}

/// Takes turn after turn, from the script's first line on. The answer is how the run ends.
fn turns<S: Source, K: Sink, Y: Keys, P: PatternMaker, N: Words, L: Ledger>(
    alloc: Global,
    session: &mut Session,
    script: &mut S,
    out: &mut K,
    keys: &mut Y,
    patterns: &mut P,
    nonces: &mut N,
    steps: &mut Steps<L>,
) -> End
    requires { Stands session.old empty }
    ensures ends { (s : SessionFields) × Stands session.new s × Ends (moment (S.told script.old) (K.told out.old) (outside (Y.told keys.old) (N.told nonces.old) (P.told patterns.old) steps.old))
        (moment (S.told script.new) (K.told out.new) (outside (Y.told keys.new) (N.told nonces.new) (P.told patterns.new) steps.new)) s result }
    ensures read { FailsAtLast (S.told script.old).calls (S.told script.new).calls (result ≡ End.ReadFault) }
    ensures write { FailsAtLast (K.told out.old).calls (K.told out.new).calls (result ≡ End.WriteFault) }
    ensures places { ((S.told script.new).place ≡ (S.told script.old).place)
        × ((K.told out.new).place ≡ (K.told out.old).place) }
{
    let Ok(mut reader) = LineReader::new(alloc) else {
        return End::Memory;
    };
    let mut number = 1;
    'turns: loop {
        match turn(
            alloc,
            number,
            session,
            &mut reader,
            script,
            out,
            keys,
            patterns,
            nonces,
            steps,
        ) {
            Ok(()) => number += 1,
            Err(end) => return end,
        }
    }
}

/// Plays a script in a session that begins with nothing. The answer is how the run ends, and the book of the session
/// with the polls that were open dropped and the releases withdrawn; no book where there was no memory for a session.
pub fn play<S: Source, K: Sink, Y: Keys, P: PatternMaker, N: Words, L: Ledger>(
    alloc: Global,
    script: &mut S,
    out: &mut K,
    keys: &mut Y,
    patterns: &mut P,
    nonces: &mut N,
    steps: &mut Steps<L>,
) -> (End, Option<Book>)
    ensures ends { EndsBy (moment (S.told script.old) (K.told out.old) (outside (Y.told keys.old) (N.told nonces.old) (P.told patterns.old) steps.old))
        (moment (S.told script.new) (K.told out.new) (outside (Y.told keys.new) (N.told nonces.new) (P.told patterns.new) steps.new)) (book_or_empty result.1) result.0 }
    ensures none { result.1 ≡ None → result.0 ≡ End.Memory }
    ensures unread { result.1 ≡ None → script.new ≡ script.old }
    ensures unwritten { result.1 ≡ None → out.new ≡ out.old }
    ensures unasked { result.1 ≡ None → (keys.new ≡ keys.old) × (patterns.new ≡ patterns.old) × (nonces.new ≡ nonces.old) × (steps.new ≡ steps.old) }
    ensures read { FailsAtLast (S.told script.old).calls (S.told script.new).calls (result.0 ≡ End.ReadFault) }
    ensures write { FailsAtLast (K.told out.old).calls (K.told out.new).calls (result.0 ≡ End.WriteFault) }
    ensures places { ((S.told script.new).place ≡ (S.told script.old).place)
        × ((K.told out.new).place ≡ (K.told out.old).place) }
{
    let Ok(mut session) = Session::new(alloc) else {
        return (End::Memory, None);
    };
    let end = turns(
        alloc,
        &mut session,
        script,
        out,
        keys,
        patterns,
        nonces,
        steps,
    );
    (end, Some(session.close()))
}
