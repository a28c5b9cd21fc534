//! Which agent is polled next, and the delivery of notices.

ghost use Rattle.std.specs.Prelude.{◌≡◌, IfOk, IfErr, string_bytes};
ghost use Rattle.kl_session.specs.Noticing.{SaysPicked, SaysNotice, DoesMark, says_noticed};
ghost use Rattle.kl_session.specs.Inner.Stopping.{IsShort};
ghost use Rattle.kl_session.specs.Texts.{notice_line};

use crate::stop::Stop;
use crate::texts::{no_notice_line, none_noticed_line, noticed_line, picked_line, told_line};
use crate::verifier::Verifier;
use kl_core::Notice;
use kl_notice::text;
use std::alloc::Global;

/// What is said of the first notice that is not delivered.
fn say_notice(alloc: Global, notice: Option<Notice>) -> Result<String, Stop>
    ensures line { IfOk result (λ line. string_bytes line ≡ notice_line notice) }
    ensures short { IfErr result (λ stop. stop ≡ Stop.Memory) }
{
    let Some(notice) = notice else {
        return Ok(none_noticed_line(alloc)?);
    };
    match text(alloc, &notice) {
        Ok(text) => Ok(told_line(alloc, text.as_str())?),
        Err(_) => Err(Stop::Memory),
    }
}

/// What is said where a notice was to be marked.
fn say_noticed(alloc: Global, number: u64, answer: bool) -> Result<String, Stop>
    ensures line { IfOk result (λ line. string_bytes line ≡ says_noticed number answer) }
    ensures short { IfErr result (λ stop. stop ≡ Stop.Memory) }
{
    if answer {
        Ok(noticed_line(alloc, number)?)
    } else {
        Ok(no_notice_line(alloc, number)?)
    }
}

impl Verifier {
    /// Which agent is polled next.
    pub(crate) fn pick(&self, alloc: Global) -> Result<String, Stop>
        ensures says { IfOk result (λ line. SaysPicked self.now (string_bytes line)) }
        ensures short { IfErr result (λ stop. stop ≡ Stop.Memory) }
    {
        let picked = self.book.pick(self.moment);
        Ok(picked_line(alloc, picked)?)
    }

    /// The first notice that is not delivered.
    pub(crate) fn notice(&self, alloc: Global) -> Result<String, Stop>
        ensures says { IfOk result (λ line. SaysNotice self.now (string_bytes line)) }
        ensures short { IfErr result (λ stop. stop ≡ Stop.Memory) }
    {
        say_notice(alloc, self.book.next_notice())
    }

    /// Marks the first notice that is not delivered as delivered, where it has this number.
    pub(crate) fn noticed(&mut self, alloc: Global, number: u64) -> Result<String, Stop>
        ensures done { IfOk result (λ line. DoesMark number self.old self.new (string_bytes line)) }
        ensures short { IfErr result (λ stop. IsShort stop self.old self.new (DoesMark number self.old self.new)) }
    {
        let answer = self.book.mark_delivered(number);
        say_noticed(alloc, number, answer)
    }
}
