//! The appraisal of a poll's evidence.

ghost use Rattle.std.specs.Prelude.{◌≡◌, ◌⊎◌, ◌+◌, ◌≤◌, ℕ, IfOk, IfErr, length, Some, None, false};
ghost use Rattle.kl_io.specs.Calls.{HasCause};
ghost use Rattle.kl_entry.specs.Lines.{lines_of};
ghost use Rattle.kl_entry.specs.declared.fault.LineFault.{LineFault};
ghost use Rattle.kl_appraise.specs.Asking.{Asked, AskedOnce};
ghost use Rattle.kl_appraise.specs.Evidence.{check_under};
ghost use Rattle.kl_appraise.specs.ListRules.{IsFirstBadLine};
ghost use Rattle.kl_appraise.specs.QuoteRules.{IsAnswered, IsUnasked};
ghost use Rattle.kl_incr.specs.Appraisal.{IsBlamed, IsIdle};

use crate::appraised::Appraised;
use crate::ticket::Ticket;
use kl_appraise::{AppraiseError, appraise_onto};
use kl_keys::Keys;
use kl_pcr::Steps;
use kl_quote::Evidence;
use kl_states::DropWhy;
use std::alloc::Global;
use std::sync::ledger::Ledger;

/// Appraises the evidence of the reply to a ticket's poll: what the seventeen rules name for the ticket and the evidence,
/// whatever list was accepted when the poll began, of which the ticket keeps what is needed. No accepted entry is measured
/// again.
///
/// # Errors
/// The ticket, with `Keys` where the key object met a fault in this call, or `Memory` where memory ran out. The evidence is let
/// go.
pub fn appraise_from<Y: Keys, L: Ledger>(
    alloc: Global,
    ticket: Ticket,
    evidence: Evidence,
    keys: &mut Y,
    steps: &mut Steps<L>,
) -> Result<Appraised, (Ticket, DropWhy)>
    // It is of this ticket and this evidence; what it says of them its type keeps.
    ensures ticket { IfOk result (λ a. a.ticket ≡ ticket) }
    ensures evidence { IfOk result (λ a. a.evidence ≡ evidence) }
    // The signature's truth is what the key object answers, where it is asked.
    ensures signed { IfOk result (λ a. IsAnswered (Y.told keys.old).relations ticket.terms.ak (check_under ticket.terms ticket.nonce evidence a.signed)) }
    // It was asked about this quote, unless one of rules 1 to 3 decides.
    ensures question { IfOk result (λ a. IsUnasked (check_under ticket.terms ticket.nonce evidence false)
        ⊎ Asked (Y.told keys.old) (Y.told keys.new) ticket.terms.ak evidence.quote (Some a.signed)) }
    // A refused ticket comes back, by the key object's fault or for want of memory.
    ensures back { IfErr result (λ e. e.0 ≡ ticket) }
    ensures blamed { IfErr result (λ e. IsBlamed e.1 (Y.told keys.old) (Y.told keys.new) ticket evidence) }
    // It is left as it was where one of them decides, and else too, or asked once about this quote.
    ensures unasked { (keys.new ≡ keys.old) ⊎ (¬ (IsUnasked (check_under ticket.terms ticket.nonce evidence false))) }
    ensures once { (keys.new ≡ keys.old) ⊎ AskedOnce (Y.told keys.old) (Y.told keys.new) ticket.terms.ak evidence.quote }
    ensures told { (Y.told keys.new).relations ≡ (Y.told keys.old).relations }
    // At most as many entries are measured as the reply's list has lines, and none where there is no outcome, unless
    // memory ran out while exclude patterns were searched for.
    ensures cost { steps.new ≤ steps.old + length (lines_of evidence.list) }
    // None is, where a line is no entry.
    ensures unread { (place : ℕ) (fault : LineFault) → IsFirstBadLine evidence.list place fault → steps.new ≡ steps.old }
    ensures idle { IfErr result (λ e. IsIdle e.1 ticket steps.old steps.new) }
{
    let kept = ticket.kept();
    match appraise_onto(
        alloc,
        ticket.terms(),
        ticket.nonce(),
        kept,
        &evidence,
        keys,
        steps,
    ) {
        Ok(found) => {
            Ok(Appraised::new(ticket, evidence, found.signed, found.outcome, found.next))
        }
        Err(AppraiseError::Keys) => Err((ticket, DropWhy::Keys)),
        Err(AppraiseError::Memory) => Err((ticket, DropWhy::Memory)),
    }
}
