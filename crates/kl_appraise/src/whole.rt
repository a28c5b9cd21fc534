//! The appraisal of a measurement list from its begin on.

ghost use Rattle.std.specs.Prelude.{◌≡◌, ◌⊎◌, ◌+◌, ◌≤◌, ℕ, [], IsErr, IfOk, IsOkAnd, IsErrOf, None, Some, length, false};
ghost use Rattle.kl_entry.specs.Lines.{lines_of};
ghost use Rattle.kl_entry.specs.declared.fault.LineFault.{LineFault};
ghost use Rattle.kl_io.specs.Calls.{HasCause};
ghost use Rattle.kl_appraise.specs.Asking.{Asked, AskedOnce};
ghost use Rattle.kl_appraise.specs.QuoteRules.{IsAnswered, IsUnasked};
ghost use Rattle.kl_appraise.specs.ListRules.{check_of, IsFirstBadLine};
ghost use Rattle.kl_appraise.specs.Outcome.{whole_case, IsVerdict, IsReplayed, HasBoot, Measures};
ghost use Rattle.kl_appraise.specs.Shown.{ShowsQuote, ShowsList};
ghost use Rattle.kl_appraise.specs.Genuine.{IsGenuine, AllowsList, IsPass};
ghost use Rattle.kl_appraise.specs.Inner.Listed.{boot_in};

use crate::fault::AppraiseError;
use crate::judged::{Boot, Judged, Outcome};
use crate::kept::Kept;
use crate::onto::appraise_onto;
use crate::terms::Terms;
use kl_keys::Keys;
use kl_pcr::Steps;
use kl_quote::Evidence;
use kl_states::Nonce;
use std::alloc::Global;
use std::sync::ledger::Ledger;

/// The verdict on the evidence of a poll that asked for the whole measurement list: that of the first rule
/// that applies.
///
/// The evidence is `Invalid` where, in this order, its quote text has not its form, it names another bank, the
/// quote is no attestation, the key object says no to its signature, it carries another nonce, it selects
/// other PCRs, the PCR values have another length, the quote has another digest of them, PCR 16 is not bound to
/// the public key text, or the list does not start at entry 0. It is `Failed` where a static PCR has a value that
/// is not allowed (the least is named), a line is no entry (the first), the list has over 131,072 entries, no
/// beginning of the list replays to the quoted PCR 10, or the policy does not allow an entry of the shortest
/// beginning that does (the first). Else that beginning passes.
///
/// # Errors
///
/// `Keys` where the key object could not be asked for the signature; `Memory` where memory ran out.
pub fn appraise_whole<Y: Keys, L: Ledger>(
    alloc: Global,
    terms: &Terms,
    nonce: &Nonce,
    evidence: &Evidence,
    keys: &mut Y,
    steps: &mut Steps<L>,
) -> Result<Judged, AppraiseError>
    // The verdict is that of the first rule that applies.
    ensures verdict { IfOk result (λ judged.
        IsVerdict (whole_case terms.now nonce.now evidence.now judged.signed) judged.verdict) }
    // The signature's truth is what the key object answers, where it is asked.
    ensures signed { IfOk result (λ judged.
        IsAnswered (Y.told keys.old).relations terms.now.ak (check_of (whole_case terms.now nonce.now evidence.now judged.signed))) }
    // A pass carries the boot that the quote signs, and nothing else carries one.
    ensures boot { IfOk result (λ judged. HasBoot evidence.now.quote judged.verdict judged.boot) }
    // Which tests the quote met, and which the list.
    ensures quote { IfOk result (λ judged.
        ShowsQuote (check_of (whole_case terms.now nonce.now evidence.now judged.signed)) (Outcome.Verdict judged.verdict)) }
    ensures list { IfOk result (λ judged.
        ShowsList (whole_case terms.now nonce.now evidence.now judged.signed) (Outcome.Verdict judged.verdict)) }
    // Genuine evidence, each entry of which up to the cut the policy allows, passes.
    ensures genuine { IfOk result (λ judged.
        IsGenuine (whole_case terms.now nonce.now evidence.now judged.signed)
        → AllowsList (whole_case terms.now nonce.now evidence.now judged.signed)
        → IsPass (whole_case terms.now nonce.now evidence.now judged.signed) judged.verdict) }
    // It was asked, unless one of rules 1 to 3 decides.
    ensures question { IfOk result (λ judged. IsUnasked (check_of (whole_case terms.now nonce.now evidence.now false))
        ⊎ Asked (Y.told keys.old) (Y.told keys.new) terms.now.ak evidence.now.quote (Some judged.signed)) }
    // It is blamed only where it was asked, since none of those rules decides, and met a fault.
    ensures fault { IsErrOf result AppraiseError.Keys
        → Asked (Y.told keys.old) (Y.told keys.new) terms.now.ak evidence.now.quote None }
    ensures asked { IsErrOf result AppraiseError.Keys
        → ¬ (IsUnasked (check_of (whole_case terms.now nonce.now evidence.now false))) }
    // It is left as it was where one of them decides, and else too, or asked once about this quote.
    ensures unasked { (keys.new ≡ keys.old)
        ⊎ (¬ (IsUnasked (check_of (whole_case terms.now nonce.now evidence.now false)))) }
    ensures once { (keys.new ≡ keys.old)
        ⊎ AskedOnce (Y.told keys.old) (Y.told keys.new) terms.now.ak evidence.now.quote }
    ensures told { (Y.told keys.new).relations ≡ (Y.told keys.old).relations }
    // It met no fault, unless it is blamed; its count of faults never falls, and rose where it is blamed.
    ensures spared { IsErrOf result AppraiseError.Keys
        ⊎ ((Y.told keys.new).calls.faults ≡ (Y.told keys.old).calls.faults) }
    ensures cause { HasCause (Y.told keys.old).calls.faults (Y.told keys.new).calls.faults
        (IsErrOf result AppraiseError.Keys) }
    // Exactly so many entries are measured.
    ensures measured { IfOk result (λ judged. (n : ℕ) × (steps.new ≡ steps.old + n)
        × Measures (whole_case terms.now nonce.now evidence.now judged.signed) (Outcome.Verdict judged.verdict) n) }
    // None is, unless there is a verdict that the list's replay decides, by one of rules 15 to 17; but memory may run
    // out late where exclude patterns are searched for.
    ensures idle { IsErrOf result AppraiseError.Memory ⊎ (IsOkAnd result (λ judged. IsReplayed judged.verdict) ⊎ (steps.new ≡ steps.old)) }
    ensures plain { terms.now.policy.patterns ≡ [] → IsErr result → steps.new ≡ steps.old }
    // At most as many are as the list has lines.
    ensures cost { steps.new ≤ steps.old + length (lines_of evidence.now.list) }
    // None is, where a line is no entry.
    ensures unread { (place : ℕ) (fault : LineFault) → IsFirstBadLine evidence.now.list place fault → steps.new ≡ steps.old }
{
    let found = appraise_onto(alloc, terms, nonce, None, evidence, keys, steps)?;
    match found.outcome {
        Outcome::Verdict(verdict) => Ok(Judged {
            verdict,
            signed: found.signed,
            boot: boot_in(found.next),
        }),
        Outcome::Restart => unreachable!(),
    }
}

/// The boot of the list that passed, where one did.
fn boot_in(next: Option<Kept>) -> Option<Boot>
    ensures { result ≡ boot_in next }
{
    match next {
        Some(kept) => Some(kept.boot),
        None => None,
    }
}
