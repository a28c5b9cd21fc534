//! The lines of the registrar's commands.

ghost use Rattle.std.specs.Prelude.{◌≡◌, IfOk, string_bytes};
ghost use Rattle.kl_registrar.specs.Records.{told_of};
ghost use Rattle.kl_session.specs.Texts.{blob_line, record_line, records_line, reg_refused_line};

use crate::texts::line_of;
use base64::engine::general_purpose::STANDARD;
use kl_registrar::{RegFault, RegRecord};
use kl_script::write_field;
use kl_states::AgentId;
use std::alloc::{AllocError, Global};

/// A command was refused by the registrar.
pub fn reg_refused_line(alloc: Global, why: RegFault) -> Result<String, AllocError>
    ensures { IfOk result (λ line. string_bytes line ≡ reg_refused_line why) }
{
    line_of(alloc, format_args!("refused {why}\n"))
}

/// An agent was registered, and this is its blob.
pub fn blob_line(alloc: Global, agent: AgentId, blob: &[u8]) -> Result<String, AllocError>
    ensures { IfOk result (λ line. string_bytes line ≡ blob_line agent blob.now) }
{
    let agent = agent.as_str();
    let mut line = line_of(alloc, format_args!("blob {agent} "))?;
    STANDARD.encode_string(blob, &mut line)?;
    line.push('\n')?;
    Ok(line)
}

/// What an agent registered.
pub fn record_line(alloc: Global, agent: AgentId, kept: &RegRecord) -> Result<String, AllocError>
    ensures { IfOk result (λ line. string_bytes line ≡ record_line agent (told_of kept.now)) }
{
    let agent = agent.as_str();
    let ek = hex::encode(alloc, kept.ek.as_slice())?;
    let ak = hex::encode(alloc, kept.ak.as_slice())?;
    let contact = write_field(alloc, kept.contact.as_str())?;
    line_of(alloc, format_args!("record {agent} {ek} {ak} {contact}\n"))
}

/// These agents are active.
pub fn records_line(alloc: Global, ids: &[AgentId]) -> Result<String, AllocError>
    ensures { IfOk result (λ line. string_bytes line ≡ records_line ids.now) }
{
    let count = ids.len();
    let mut line = line_of(alloc, format_args!("records {count}"))?;
    for id in ids {
        line.push(' ')?;
        line.push_str(id.as_str())?;
    }
    line.push('\n')?;
    Ok(line)
}
