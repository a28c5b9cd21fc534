//! Lines as commands.

ghost use Rattle.std.specs.Prelude.{◌≡◌, ◌≤◌, ◌↔◌, ℕ, List, IsTrue, IfOk, Err, length};
ghost use Rattle.kl_script.specs.Commands.{CommandFields, IsBlank, Spells, IsRead, fields};

use crate::command::Command;
use crate::fault::CommandFault;
use crate::registering::read_registrar;
use crate::verifying::read_verifier;
use std::alloc::Global;

/// Whether a line asks for nothing: it is empty or a comment.
fn is_blank(line: &str) -> bool
    ensures { IsTrue result ↔ IsBlank line.now }
{
    line.is_empty() || line.starts_with('#')
}

/// The command that a line of text spells.
fn read_text(alloc: Global, line: &str) -> Result<Command, CommandFault>
    requires { length line.now ≤ 16777216 }
    ensures found { IfOk result (λ command. Spells line.now (fields command)) }
    ensures none { result ≡ Err CommandFault.NoCommand → (said : CommandFields) → ¬ (Spells line.now said) }
{
    if is_blank(line) {
        return Ok(Command::Nothing);
    }
    match read_verifier(alloc, line) {
        Ok(command) => Ok(Command::Verifier(command)),
        Err(CommandFault::NoCommand) => Ok(Command::Registrar(read_registrar(alloc, line)?)),
        Err(CommandFault::Memory) => Err(CommandFault::Memory),
    }
}

/// The command that a line spells, without its newline.
///
/// The words of a line have one space between two. The commands are
///
/// - nothing: an empty line, or a comment, which begins with `#`
/// - `add <agent> <contact> <bank> <mask> <statics> <ak> <v> <kind> <policy>`
/// - `replace <agent> <kind> <policy>`
/// - `reactivate <agent>`, `stop <agent>`, `remove <agent>` and `state <agent>`
/// - `now <moment>`
/// - `begin <agent> <nonce>`, or `begin <agent>` for a nonce that is drawn
/// - `reply <poll> <bank> <start> <public key> <quote> <measurement list>`
/// - `lose <poll>`, `pick`, `notice` and `noticed <number>`
/// - `release <agent>`, `settle <number> arrived` and `settle <number> missed`
/// - `register <agent> <ek> <ak> <contact>`, `activate <agent> <tag>`, `record <agent>`, `records` and
///   `forget <agent>`
///
/// A kind is `flat` or `json`. A contact, a tag, the bank of a reply, the public key and the quote are
/// fields, and a policy and a measurement list are rests, which go to the line's end. A moment, a
/// poll, a start and a number are decimal numbers below 2^64. The error is `NoCommand` for every other line,
/// and for one that is not UTF-8, be it a comment.
pub fn read_command(alloc: Global, line: &[u8]) -> Result<Command, CommandFault>
    requires { length line.now ≤ 16777216 }
    ensures found { IfOk result (λ command. Spells line.now (fields command)) }
    ensures only { (said : CommandFields) → Spells line.now said → IsRead result said }
    ensures none { result ≡ Err CommandFault.NoCommand → (said : CommandFields) → ¬ (Spells line.now said) }
{
    match std::str::from_utf8(line) {
        Ok(line) => read_text(alloc, line),
        Err(_) => Err(CommandFault::NoCommand),
    }
}

/// A line spells at most one command.
pub fn one_command()
    ensures { (line : List ℕ) (first second : CommandFields) → Spells line first → Spells line second → first ≡ second }
{}
