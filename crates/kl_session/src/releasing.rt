//! V is handed out, and what was handed out is settled.

ghost use Rattle.std.specs.Prelude.{◌≡◌, ◌∷◌, [], IfOk, IfErr, string_bytes};
ghost use Rattle.kl_history.specs.declared.record.Record.TheVariants.{Settled};
ghost use Rattle.kl_history.specs.Legal.{Legal};
ghost use Rattle.kl_core.specs.Books.{past, with_more};
ghost use Rattle.kl_core.specs.Shares.{IsOpenShare, IsSettlement};
ghost use Rattle.kl_session.specs.Releasing.{DoesRelease, DoesSettle};
ghost use Rattle.kl_session.specs.Texts.{released_line, settled_line};
ghost use Rattle.kl_session.specs.Inner.Stopping.{IsShort};

use crate::numbered::take_numbered;
use crate::refusals::say_refused;
use crate::stop::Stop;
use crate::texts::{released_line, settled_line};
use crate::verifier::Verifier;
use kl_core::{Book, Refusal, Settlement, Share};
use kl_script::Settle;
use kl_states::{AgentId, Outcome};
use std::alloc::Global;

/// What is said of a release.
fn say_released(alloc: Global, share: &Share) -> Result<String, Stop>
    ensures line { IfOk result (λ line. string_bytes line ≡ released_line share.now) }
    ensures short { IfErr result (λ stop. stop ≡ Stop.Memory) }
{
    Ok(released_line(alloc, share)?)
}

/// What is said of a release that was settled.
fn say_settled(alloc: Global, settlement: Settlement) -> Result<String, Stop>
    ensures line { IfOk result (λ line. string_bytes line ≡ settled_line settlement) }
    ensures short { IfErr result (λ stop. stop ≡ Stop.Memory) }
{
    Ok(settled_line(alloc, settlement)?)
}

/// Settles an open release.
fn settle_release(book: &mut Book, share: Share, outcome: Outcome) -> Settlement
    requires { IsOpenShare (past book.old) share }
    ensures settled { IsSettlement (past book.old) share outcome result }
    ensures history { book.new ≡ with_more (Settled share.number outcome result.current ∷ []) book.old }
    ensures legal { Legal book.new.history }
{
    let settlement = match book.settle_own(share, outcome) {
        Ok(settlement) => settlement,
        Err(_) => unreachable!(),
    };
    let _len = book.len();
    settlement
}

impl Verifier {
    /// Hands V of an agent out.
    pub(crate) fn release(&mut self, alloc: Global, agent: AgentId) -> Result<String, Stop>
        ensures done { IfOk result (λ line. DoesRelease agent self.old self.new (string_bytes line)) }
        ensures short { IfErr result (λ stop. IsShort stop self.old self.new (DoesRelease agent self.old self.new)) }
    {
        self.shares.reserve(1)?;
        let answer = self.book.release(alloc, &agent);
        let _len = self.book.len();
        match answer {
            Ok(share) => {
                let line = say_released(alloc, &share);
                self.shares.push_reserved(share);
                line
            },
            Err(why) => say_refused(alloc, why),
        }
    }

    /// Settles an open release.
    pub(crate) fn settle(&mut self, alloc: Global, settle: Settle) -> Result<String, Stop>
        ensures done { IfOk result (λ line. DoesSettle settle self.old self.new (string_bytes line)) }
        ensures short { IfErr result (λ stop. IsShort stop self.old self.new (DoesSettle settle self.old self.new)) }
    {
        let Settle { number, delivery } = settle;
        match take_numbered(&mut self.shares, number) {
            Some(share) => {
                let settlement = settle_release(&mut self.book, share, delivery.outcome());
                say_settled(alloc, settlement)
            },
            None => say_refused(alloc, Refusal::NoRelease(number)),
        }
    }
}
