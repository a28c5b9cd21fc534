//! Runs the worked examples: scripts on standard input, each behind a line `== <fault> <words> <name>`.
//!
//! For each case it prints `== <name>`, what `run` wrote, and `status <n>`. The fault is `-`, or the number of the call of
//! the key object that fails. The words are what there is to draw, in hexadecimal, or `-` where there is nothing.
#![tactic(auto)]

ghost use Rattle.std.specs.Prelude.{◌≡◌, ◌≤◌};

use anyhow::{Result, bail};
use kl_console::run_counted;
use kl_exclude::{PatternMaker, StdMaker};
use kl_io::{MemSink, MemSource, MemWords, Sink, Source, Words};
use kl_keys::{Keys, MacKeys};
use std::alloc::{AllocError, Global};
use std::io::{BufRead, BufReader};
use std::marker::Brand;
use std::sync::ledger::{Blank, Ledger};

/// More bytes than any case prints, as `tools/make_cases.py` has it.
const ROOM: usize = 65_536;

/// A script, which call of the key object fails, and the bytes that there are to draw.
#[derive(Drop)]
struct Case {
    name: String,
    fault: Option<u64>,
    words: Vec<u8>,
    script: String,
}

impl Case {
    /// The case of a first line, without its mark. Its script is empty.
    fn begin(alloc: Global, head: &str) -> Result<Case> {
        let Some((fault, rest)) = head.split_once(' ') else {
            bail!("{head}: no first line of a case");
        };
        let Some((words, name)) = rest.split_once(' ') else {
            bail!("{head}: no first line of a case");
        };
        Ok(Case {
            name: String::from_str(alloc, name)?,
            fault: fault_of(fault)?,
            words: bytes_of(alloc, words)?,
            script: String::new(alloc),
        })
    }

    /// Adds a line to the script.
    fn push(&mut self, line: &str) -> Result<(), AllocError> {
        self.script.push_str(line)?;
        self.script.push_str("\n")
    }
}

/// The call that fails, where one does.
fn fault_of(word: &str) -> Result<Option<u64>> {
    if word == "-" {
        return Ok(None);
    }
    let Ok(number) = word.parse::<u64>() else {
        bail!("{word}: no number of a call");
    };
    Ok(Some(number))
}

/// The bytes that there are to draw.
fn bytes_of(alloc: Global, word: &str) -> Result<Vec<u8>> {
    if word == "-" {
        return Ok(Vec::new(alloc));
    }
    let Ok(bytes) = hex::decode(alloc, word) else {
        bail!("{word}: no bytes in hexadecimal");
    };
    Ok(bytes)
}

fn main(rt: HostRuntime) -> Result<()> {
    let alloc = rt.alloc();
    let mut case: Option<Case> = None;
    for line in BufReader::new(alloc, rt.reader())?.lines(alloc) {
        let line = line?;
        match line.as_str().strip_prefix("== ") {
            Some(head) => {
                let next = Case::begin(alloc, head)?;
                if let Some(done) = case.replace(next) {
                    play(&rt, done)?;
                }
            }
            None => push_to(&mut case, line.as_str())?,
        }
    }
    match case {
        Some(done) => play(&rt, done),
        None => Ok(()),
    }
}

/// Adds a line to the case whose first line came before it.
fn push_to(case: &mut Option<Case>, line: &str) -> Result<()> {
    let Some(case) = case else {
        bail!("{line}: a line before the first case");
    };
    Ok(case.push(line)?)
}

/// Runs a case, and prints what it gave.
fn play<R: Print + AllocGlobal>(rt: &R, case: Case) -> Result<()> {
    let alloc = rt.alloc();
    let Ok(mut keys) = keys_of(alloc, case.fault) else {
        bail!("out of memory");
    };
    let mut nonces = MemWords::new(alloc, case.words, &[])?;
    let mut script = MemSource::new(alloc, case.script.into_bytes(), &[])?;
    let mut out = MemSink::new(alloc, ROOM, &[])?;
    let words = vec![in alloc; String::from_str(alloc, "run")?]?;
    let status = run_alone::<_, _, _, _, _, Brand>(
        alloc,
        &words,
        &mut script,
        &mut out,
        &mut keys,
        &mut StdMaker::new(),
        &mut nonces,
        Blank::new(1),
    );
    print_case(rt, case.name.as_str(), out.held(), status)
}

/// Prints what a case gave.
fn print_case<R: Print>(rt: &R, name: &str, held: &[u8], status: u8) -> Result<()> {
    let Ok(printed) = std::str::from_utf8(held) else {
        bail!("{name}: what was printed is no text");
    };
    println!(rt; "== {name}")?;
    print!(rt; "{printed}")?;
    println!(rt; "status {status}")?;
    Ok(())
}

/// Keys whose call of this number fails.
fn keys_of(alloc: Global, fault: Option<u64>) -> Result<MacKeys, kl_keys::Memory> {
    match fault {
        Some(number) => MacKeys::new(alloc, &[number]),
        None => MacKeys::new(alloc, &[]),
    }
}

/// Runs a script as `run_counted` does. It promises nothing, so that `play` carries no law of a run: its output is compared.
fn run_alone<S: Source, K: Sink, Y: Keys, P: PatternMaker, N: Words, L: Ledger>(
    alloc: Global,
    words: &[String],
    script: &mut S,
    out: &mut K,
    keys: &mut Y,
    patterns: &mut P,
    nonces: &mut N,
    blank: Blank,
) -> u8
    requires name { blank.name ≡ L.name }
    requires parts { blank.parts ≡ L.parts }
    requires some { 1 ≤ blank.parts }
{
    run_counted::<_, _, _, _, _, L>(alloc, words, script, out, keys, patterns, nonces, blank)
}
