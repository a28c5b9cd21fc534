//! Lines as commands to the verifier.

ghost use Rattle.std.specs.Prelude.{◌≡◌, ◌≢◌, ◌≤◌, ℕ, List, IfOk, IfSome, IfNone, OnErr, Err, length};
ghost use Rattle.kl_states.specs.declared.policy_kind.PolicyKind.{PolicyKind as AnyKind};
ghost use Rattle.kl_script.specs.declared.command.Add.{Add as AnyAdd};
ghost use Rattle.kl_script.specs.declared.command.Begin.{Begin as AnyBegin};
ghost use Rattle.kl_script.specs.declared.command.Delivery.{Delivery as AnyDelivery};
ghost use Rattle.kl_script.specs.declared.command.Replace.{Replace as AnyReplace};
ghost use Rattle.kl_script.specs.declared.command.Settle.{Settle as AnySettle};
ghost use Rattle.kl_script.specs.Commands.{SpellsAdd, SpellsBegin, SpellsReplace, SpellsReply, SpellsSettle};
ghost use Rattle.kl_script.specs.Commands.{HasVerifierForm, ReplyFields, VerifierCommandFields, kind_word, reply_fields, verifier_fields};
ghost use Rattle.kl_script.specs.Deliveries.{delivery_word};
ghost use Rattle.kl_script.specs.Words.{HasNo, IsNumber};

use crate::command::{Add, Begin, Delivery, Replace, Reply, Settle, VerifierCommand};
use crate::digits::{read_key, read_mask, read_share};
use crate::fault::CommandFault;
use crate::ids::{read_agent, read_nonce};
use crate::numbers::read_number;
use crate::statics::read_statics;
use crate::words::{cut_at, read_field, split_words, unescape_rest};
use kl_bank::Bank;
use kl_quote::Evidence;
use kl_states::{PolicyKind, Text};
use std::alloc::Global;

/// A number alone, as it stands behind `now`, `lose` and `noticed`.
fn read_decimal(arguments: &str) -> Result<u64, CommandFault>
    ensures found { IfOk result (λ number. IsNumber arguments.now number) }
    ensures none { OnErr result ((number : ℕ) → ¬ (IsNumber arguments.now number)) }
{
    read_number(arguments).ok_or(CommandFault::NoCommand)
}

/// The form of a policy: `flat` or `json`.
fn read_kind(word: &str) -> Option<PolicyKind>
    ensures found { IfSome result (λ kind. word.now ≡ kind_word kind) }
    ensures none { IfNone result ((kind : AnyKind) → word.now ≢ kind_word kind) }
{
    match word {
        "flat" => Some(PolicyKind::Flat),
        "json" => Some(PolicyKind::Json),
        _ => None,
    }
}

/// What stands behind `add`.
fn read_add(alloc: Global, arguments: &str) -> Result<Add, CommandFault>
    ensures found { IfOk result (λ add. SpellsAdd arguments.now add) }
    ensures none { result ≡ Err CommandFault.NoCommand → (said : AnyAdd) → ¬ (SpellsAdd arguments.now said) }
{
    let (words, policy) = split_words(alloc, arguments, 8)?;
    let &[agent, contact, bank, mask, statics, ak, v, kind] = words.as_slice() else {
        return Err(CommandFault::NoCommand);
    };
    let agent = read_agent(agent)?;
    let Some(bank) = Bank::from_name(bank) else {
        return Err(CommandFault::NoCommand);
    };
    let Some(mask) = read_mask(mask) else {
        return Err(CommandFault::NoCommand);
    };
    let Some(kind) = read_kind(kind) else {
        return Err(CommandFault::NoCommand);
    };
    let contact = Text::new(read_field(alloc, contact)?);
    let statics = read_statics(alloc, statics)?;
    let ak = read_key(alloc, ak)?;
    let v = read_share(v)?;
    let policy = Text::new(unescape_rest(alloc, policy)?);
    Ok(Add {
        agent,
        contact,
        bank,
        mask,
        statics,
        ak,
        v,
        kind,
        policy,
    })
}

/// What stands behind `replace`.
fn read_replace(alloc: Global, arguments: &str) -> Result<Replace, CommandFault>
    ensures found { IfOk result (λ replace. SpellsReplace arguments.now replace) }
    ensures none { result ≡ Err CommandFault.NoCommand → (said : AnyReplace) → ¬ (SpellsReplace arguments.now said) }
{
    let (words, policy) = split_words(alloc, arguments, 2)?;
    let &[agent, kind] = words.as_slice() else {
        return Err(CommandFault::NoCommand);
    };
    let agent = read_agent(agent)?;
    let Some(kind) = read_kind(kind) else {
        return Err(CommandFault::NoCommand);
    };
    let policy = Text::new(unescape_rest(alloc, policy)?);
    Ok(Replace {
        agent,
        kind,
        policy,
    })
}

/// What stands behind `begin`.
fn read_begin(arguments: &str) -> Result<Begin, CommandFault>
    ensures found { IfOk result (λ begin. SpellsBegin arguments.now begin) }
    ensures none { result ≡ Err CommandFault.NoCommand → (said : AnyBegin) → ¬ (SpellsBegin arguments.now said) }
{
    let Some((agent, nonce)) = arguments.split_once(' ') else {
        let agent = read_agent(arguments)?;
        return Ok(Begin { agent, nonce: None });
    };
    let agent = read_agent(agent)?;
    let nonce = Some(read_nonce(nonce)?);
    Ok(Begin { agent, nonce })
}

/// What stands behind `reply`.
fn read_reply(alloc: Global, arguments: &str) -> Result<Reply, CommandFault>
    requires { length arguments.now ≤ 16777216 }
    ensures found { IfOk result (λ reply. SpellsReply arguments.now (reply_fields reply)) }
    ensures none { result ≡ Err CommandFault.NoCommand → (said : ReplyFields) → ¬ (SpellsReply arguments.now said) }
{
    let (words, list) = split_words(alloc, arguments, 5)?;
    let &[poll, bank, start, public, quote] = words.as_slice() else {
        return Err(CommandFault::NoCommand);
    };
    let Some(poll) = read_number(poll) else {
        return Err(CommandFault::NoCommand);
    };
    let Some(start) = read_number(start) else {
        return Err(CommandFault::NoCommand);
    };
    let bank = read_field(alloc, bank)?;
    let public = read_field(alloc, public)?;
    let quote = read_field(alloc, quote)?;
    let list = unescape_rest(alloc, list)?;
    match Evidence::new(bank, start, public, quote, list) {
        Some(evidence) => Ok(Reply { poll, evidence }),
        None => unreachable!(),
    }
}

/// How a delivery ended: `arrived` or `missed`.
fn read_delivery(word: &str) -> Option<Delivery>
    ensures found { IfSome result (λ delivery. word.now ≡ delivery_word delivery) }
    ensures none { IfNone result ((delivery : AnyDelivery) → word.now ≢ delivery_word delivery) }
{
    match word {
        "arrived" => Some(Delivery::Arrived),
        "missed" => Some(Delivery::Missed),
        _ => None,
    }
}

/// What stands behind `settle`.
fn read_settle(arguments: &str) -> Result<Settle, CommandFault>
    ensures found { IfOk result (λ settle. SpellsSettle arguments.now settle) }
    ensures none { result ≡ Err CommandFault.NoCommand → (said : AnySettle) → ¬ (SpellsSettle arguments.now said) }
{
    let (number, delivery) = cut_at(arguments, b' ')?;
    let number = read_decimal(number)?;
    let Some(delivery) = read_delivery(delivery) else {
        return Err(CommandFault::NoCommand);
    };
    Ok(Settle { number, delivery })
}

/// The command of a line that has no space: it is a word alone.
fn read_word(line: &str) -> Result<VerifierCommand, CommandFault>
    requires { HasNo 32 line.now }
    ensures found { IfOk result (λ command. HasVerifierForm line.now (verifier_fields command)) }
    ensures none { OnErr result ((said : VerifierCommandFields) → ¬ (HasVerifierForm line.now said)) }
{
    match line {
        "pick" => Ok(VerifierCommand::Pick),
        "notice" => Ok(VerifierCommand::Notice),
        _ => Err(CommandFault::NoCommand),
    }
}

/// The command to the verifier that a line spells.
pub(crate) fn read_verifier(alloc: Global, line: &str) -> Result<VerifierCommand, CommandFault>
    requires { length line.now ≤ 16777216 }
    ensures found { IfOk result (λ command. HasVerifierForm line.now (verifier_fields command)) }
    ensures none { result ≡ Err CommandFault.NoCommand → (said : VerifierCommandFields) → ¬ (HasVerifierForm line.now said) }
{
    let Ok((name, arguments)) = cut_at(line, b' ') else {
        return read_word(line);
    };
    match name {
        "add" => Ok(VerifierCommand::Add(read_add(alloc, arguments)?)),
        "replace" => Ok(VerifierCommand::Replace(read_replace(alloc, arguments)?)),
        "reactivate" => Ok(VerifierCommand::Reactivate(read_agent(arguments)?)),
        "stop" => Ok(VerifierCommand::Stop(read_agent(arguments)?)),
        "remove" => Ok(VerifierCommand::Remove(read_agent(arguments)?)),
        "now" => Ok(VerifierCommand::Now(read_decimal(arguments)?)),
        "begin" => Ok(VerifierCommand::Begin(read_begin(arguments)?)),
        "reply" => Ok(VerifierCommand::Reply(read_reply(alloc, arguments)?)),
        "state" => Ok(VerifierCommand::State(read_agent(arguments)?)),
        "lose" => Ok(VerifierCommand::Lose(read_decimal(arguments)?)),
        "release" => Ok(VerifierCommand::Release(read_agent(arguments)?)),
        "settle" => Ok(VerifierCommand::Settle(read_settle(arguments)?)),
        "noticed" => Ok(VerifierCommand::Noticed(read_decimal(arguments)?)),
        _ => Err(CommandFault::NoCommand),
    }
}
