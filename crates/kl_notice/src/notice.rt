//! What a notice says, and its text.

ghost use Rattle.std.specs.Prelude.{◌≡◌, IfOk, Some, string_bytes};
ghost use Rattle.kl_notice.specs.Texts.{why_text, notice_text};

use kl_base::Memory;
use kl_states::{AgentId, Verdict};
use std::alloc::Global;
use std::fmt;

/// Why an agent failed.
#[derive(Clone, Copy, Debug, PartialEq, Eq)]
pub enum FailWhy {
    /// By a verdict.
    Verdict(Verdict),
    /// Five polls in a row were lost.
    Losses,
    /// Five deliveries of its key share in a row were missed.
    Undelivered,
}

/// That an agent failed.
#[derive(Clone, Copy, Debug)]
pub struct Notice {
    /// Its place among the notices, from 1.
    pub number: u64,
    /// The agent that failed.
    pub agent: AgentId,
    /// The policy generation under which it was installed.
    pub generation: u64,
    /// Why it failed.
    pub why: FailWhy,
}

/// The verdict's text, `losses` or `undelivered`.
impl fmt::Display for FailWhy {
    ghost output = { λ why. Some (why_text why) };

    fn fmt<W: fmt::Write>(&self, f: &mut fmt::Formatter<W>) -> fmt::Result {
        match self {
            FailWhy::Verdict(verdict) => write!(f, "{verdict}"),
            FailWhy::Losses => f.write_str("losses"),
            FailWhy::Undelivered => f.write_str("undelivered"),
        }
    }
}

/// The text of a notice, a JSON object on one line.
///
/// # Errors
/// [`Memory`] where there is none for the text.
pub fn text(alloc: Global, notice: &Notice) -> Result<String, Memory>
    ensures { IfOk result (λ t. string_bytes t ≡ notice_text notice.now) }
{
    let Notice {
        number,
        agent,
        generation,
        why,
    } = *notice;
    let text = format!(in alloc;
        "{{\"agent\":\"{agent}\",\"generation\":{generation},\"notice\":{number},\"type\":\"revocation\",\"why\":\"{why}\"}}"
    )?;
    Ok(text)
}
