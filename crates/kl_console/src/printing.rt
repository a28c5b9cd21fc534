//! What a run writes.

ghost use Rattle.std.specs.Prelude.{◌≡◌, Err, IfErr, IfOk, IsErr, OnOk, string_bytes};
ghost use Rattle.kl_console.specs.Calls.{FailsAtLast};
ghost use Rattle.kl_console.specs.Script.{fault_line, puts_of};
ghost use Rattle.kl_console.specs.Inner.Printing.{Prints, Writes, WritesFront};

use crate::ending::End;
use kl_io::Sink;
use std::alloc::{AllocError, Global};

/// Writes a text by one put, and an empty one by none.
///
/// # Errors
/// `WriteFault` where the output met a fault.
pub fn print<K: Sink>(out: &mut K, text: &str) -> Result<(), End>
    ensures whole { OnOk result (Writes (K.told out.old) (K.told out.new) text.now (puts_of text.now)) }
    ensures front { IfErr result (λ e. (e ≡ End.WriteFault) × WritesFront (K.told out.old) (K.told out.new) text.now) }
    ensures failed { FailsAtLast (K.told out.old).calls (K.told out.new).calls (IsErr result) }
    ensures place { (K.told out.new).place ≡ (K.told out.old).place }
{
    if text.is_empty() {
        return Ok(());
    }
    match out.put(text.as_bytes()) {
        Ok(()) => Ok(()),
        Err(_) => Err(End::WriteFault),
    }
}

/// The line of this number, from 1, is bad.
fn fault_line(alloc: Global, number: u64) -> Result<String, AllocError>
    ensures { IfOk result (λ line. string_bytes line ≡ fault_line number) }
{
    format!(in alloc; "fault line {number}\n")
}

/// Writes that the line of this number, from 1, is bad.
///
/// # Errors
/// `WriteFault` where the output met a fault, and `Memory` where memory ran out.
pub fn complain<K: Sink>(alloc: Global, number: u64, out: &mut K) -> Result<(), End>
    ensures prints { Prints (K.told out.old) (K.told out.new) (fault_line number) result }
    ensures failed { FailsAtLast (K.told out.old).calls (K.told out.new).calls (result ≡ Err End.WriteFault) }
    ensures place { (K.told out.new).place ≡ (K.told out.old).place }
{
    let text = fault_line(alloc, number)?;
    print(out, text.as_str())
}
