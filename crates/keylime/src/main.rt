//! The program over the real standard streams and the system's random bytes: `keylime run < script`.
#![tactic(auto)]

mod starting;

use crate::starting::{NoWords, start};
use kl_exclude::StdMaker;
use kl_io::{StdSink, StdSource, StdWords};
use kl_keys::MacKeys;
use std::alloc::Global;
use std::marker::Brand;
use std::process::ExitCode;
use std::rt::Env;
use std::sync::ledger::Blank;
use std::{env, io};

/// The status where memory ran out before the program could start.
const MEMORY: u8 = 70;

fn main(rt: HostRuntime) -> ExitCode {
    let alloc = rt.alloc();
    let Ok(mut keys) = MacKeys::new(alloc, &[]) else {
        return ExitCode::from(MEMORY);
    };
    let mut script = StdSource::new(rt.stdin());
    let mut out = StdSink::new(rt.stdout());
    let mut nonces = StdWords::new(&rt);
    let status = start::<_, _, _, _, _, Brand>(
        alloc,
        words_of(alloc, &rt),
        &mut script,
        &mut out,
        &mut keys,
        &mut StdMaker::new(),
        &mut nonces,
        Blank::new(1),
    );
    ExitCode::from(status)
}

/// The words of the command line behind the program's name.
fn words_of<R: Env + AllocGlobal>(alloc: Global, rt: &R) -> Result<Vec<String>, NoWords> {
    match read_words(alloc, rt) {
        Ok(words) => Ok(words),
        Err(error) if error.kind() == io::ErrorKind::OutOfMemory => Err(NoWords::Memory),
        Err(_) => Err(NoWords::NoText),
    }
}

fn read_words<R: Env + AllocGlobal>(alloc: Global, rt: &R) -> io::Result<Vec<String>> {
    let words = env::args(rt)?.skip(1).collect(alloc)?;
    Ok(words)
}
