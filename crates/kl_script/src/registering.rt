//! Lines as commands to the registrar.

ghost use Rattle.std.specs.Prelude.{◌≡◌, IfOk, OnErr, Err};
ghost use Rattle.kl_script.specs.declared.command.Activate.{Activate as AnyActivate};
ghost use Rattle.kl_script.specs.declared.command.Register.{Register as AnyRegister};
ghost use Rattle.kl_script.specs.declared.command.RegistrarCommand.{RegistrarCommand as AnyCommand};
ghost use Rattle.kl_script.specs.Commands.{HasRegistrarForm, SpellsActivate, SpellsRegister};
ghost use Rattle.kl_script.specs.Words.{HasNo};

use crate::command::{Activate, Register, RegistrarCommand};
use crate::digits::read_key;
use crate::fault::CommandFault;
use crate::ids::read_agent;
use crate::words::{cut_at, read_field, split_words};
use kl_states::Text;
use std::alloc::Global;

/// What stands behind `register`.
fn read_register(alloc: Global, arguments: &str) -> Result<Register, CommandFault>
    ensures found { IfOk result (λ register. SpellsRegister arguments.now register) }
    ensures none { result ≡ Err CommandFault.NoCommand → (said : AnyRegister) → ¬ (SpellsRegister arguments.now said) }
{
    let (words, contact) = split_words(alloc, arguments, 3)?;
    let &[agent, ek, ak] = words.as_slice() else {
        return Err(CommandFault::NoCommand);
    };
    let agent = read_agent(agent)?;
    let ek = read_key(alloc, ek)?;
    let ak = read_key(alloc, ak)?;
    let contact = Text::new(read_field(alloc, contact)?);
    Ok(Register {
        agent,
        ek,
        ak,
        contact,
    })
}

/// What stands behind `activate`.
fn read_activate(alloc: Global, arguments: &str) -> Result<Activate, CommandFault>
    ensures found { IfOk result (λ activate. SpellsActivate arguments.now activate) }
    ensures none { result ≡ Err CommandFault.NoCommand → (said : AnyActivate) → ¬ (SpellsActivate arguments.now said) }
{
    let (words, tag) = split_words(alloc, arguments, 1)?;
    let &[agent] = words.as_slice() else {
        return Err(CommandFault::NoCommand);
    };
    let agent = read_agent(agent)?;
    let tag = Text::new(read_field(alloc, tag)?);
    Ok(Activate { agent, tag })
}

/// The command of a line that has no space: it is a word alone.
fn read_word(line: &str) -> Result<RegistrarCommand, CommandFault>
    requires { HasNo 32 line.now }
    ensures found { IfOk result (λ command. HasRegistrarForm line.now command) }
    ensures none { OnErr result ((said : AnyCommand) → ¬ (HasRegistrarForm line.now said)) }
{
    match line {
        "records" => Ok(RegistrarCommand::Records),
        _ => Err(CommandFault::NoCommand),
    }
}

/// The command to the registrar that a line spells.
pub(crate) fn read_registrar(alloc: Global, line: &str) -> Result<RegistrarCommand, CommandFault>
    ensures found { IfOk result (λ command. HasRegistrarForm line.now command) }
    ensures none { result ≡ Err CommandFault.NoCommand → (said : AnyCommand) → ¬ (HasRegistrarForm line.now said) }
{
    let Ok((name, arguments)) = cut_at(line, b' ') else {
        return read_word(line);
    };
    match name {
        "register" => Ok(RegistrarCommand::Register(read_register(alloc, arguments)?)),
        "activate" => Ok(RegistrarCommand::Activate(read_activate(alloc, arguments)?)),
        "record" => Ok(RegistrarCommand::Record(read_agent(arguments)?)),
        "forget" => Ok(RegistrarCommand::Forget(read_agent(arguments)?)),
        _ => Err(CommandFault::NoCommand),
    }
}
