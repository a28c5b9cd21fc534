//! The appraisal of evidence that may continue a kept list.

ghost use Rattle.std.specs.Prelude.{◌≡◌, ◌⊎◌, ◌+◌, ◌*◌, ◌≤◌, ℕ, [], count_ones, IfOk, IfSome, IsErr, IsErrOf, None, Some, length, false};
ghost use Rattle.kl_bank.specs.Banks.{size_of};
ghost use Rattle.kl_entry.specs.Lines.{lines_of};
ghost use Rattle.kl_entry.specs.declared.fault.LineFault.{LineFault};
ghost use Rattle.kl_io.specs.Calls.{HasCause};
ghost use Rattle.kl_appraise.specs.Asking.{Asked, AskedOnce};
ghost use Rattle.kl_appraise.specs.QuoteRules.{IsAnswered, IsUnasked};
ghost use Rattle.kl_appraise.specs.ListRules.{IsFirstBadLine};
ghost use Rattle.kl_appraise.specs.Outcome.{IsOutcome, Measures};
ghost use Rattle.kl_appraise.specs.Kept.{IsKept, IsNext, InEachCase};
ghost use Rattle.kl_appraise.specs.Shown.{ShowsQuote, ShowsList};
ghost use Rattle.kl_appraise.specs.Evidence.{check_under};
ghost use Rattle.kl_appraise.specs.Inner.Checked.{answer_of, ChecksAs};
ghost use Rattle.kl_appraise.specs.Inner.Listed.{next_with};

use crate::fault::AppraiseError;
use crate::judged::Outcome;
use crate::judging::{LIST_PCR, judge_list};
use crate::kept::{Found, Kept};
use crate::quoted::{Checked, SoundQuote, Wanted, check_quote};
use crate::terms::Terms;
use kl_keys::Keys;
use kl_pcr::{Steps, value};
use kl_quote::Evidence;
use kl_states::{Nonce, Verdict};
use std::alloc::Global;
use std::sync::ledger::Ledger;

/// The outcome of the evidence of a poll that asked for the measurement list behind the entries that
/// were accepted before it, of which this is kept; or of a poll of the whole list, where nothing is kept.
///
/// It is that of the first rule that applies ([`appraise_whole`](crate::appraise_whole) lists those that
/// give a verdict), over the accepted entries that the reply begins behind and those of the reply. A reply
/// may begin at entry 0 too. It is `Restart` where it begins behind accepted entries and its quote signs
/// another boot than theirs. No accepted entry is measured again.
///
/// # Errors
///
/// `Keys` where the key object could not be asked for the signature; `Memory` where memory ran out.
pub fn appraise_onto<Y: Keys, L: Ledger>(
    alloc: Global,
    terms: &Terms,
    nonce: &Nonce,
    kept: Option<Kept>,
    evidence: &Evidence,
    keys: &mut Y,
    steps: &mut Steps<L>,
) -> Result<Found, AppraiseError>
    requires { IfSome kept (λ k. IsKept terms.now.bank k) }
    // Whatever accepted entries the kept value stands for, the outcome is that of the first rule that applies.
    ensures outcome { IfOk result (λ found. InEachCase terms.now nonce.now kept evidence.now found.signed (λ c. IsOutcome c found.outcome)) }
    // The signature's truth is what the key object answers, where it is asked.
    ensures signed { IfOk result (λ found. IsAnswered (Y.told keys.old).relations terms.now.ak (check_under terms.now nonce.now evidence.now found.signed)) }
    // A pass leaves the list that passed to be continued, and nothing else does.
    ensures next { IfOk result (λ found. IsNext terms.now evidence.now.quote found.outcome found.next) }
    ensures kept { IfOk result (λ found. IfSome found.next (λ k. IsKept terms.now.bank k)) }
    // Which tests were met.
    ensures quote { IfOk result (λ found. ShowsQuote (check_under terms.now nonce.now evidence.now found.signed) found.outcome) }
    ensures list { IfOk result (λ found. InEachCase terms.now nonce.now kept evidence.now found.signed (λ c. ShowsList c found.outcome)) }
    // It was asked, unless one of rules 1 to 3 decides.
    ensures question { IfOk result (λ found. IsUnasked (check_under terms.now nonce.now evidence.now false)
        ⊎ Asked (Y.told keys.old) (Y.told keys.new) terms.now.ak evidence.now.quote (Some found.signed)) }
    // It is blamed only where it was asked, since none of those rules decides, and met a fault.
    ensures fault { IsErrOf result AppraiseError.Keys → Asked (Y.told keys.old) (Y.told keys.new) terms.now.ak evidence.now.quote None }
    ensures asked { IsErrOf result AppraiseError.Keys → ¬ (IsUnasked (check_under terms.now nonce.now evidence.now false)) }
    // It is left as it was where one of them decides, and else too, or asked once about this quote.
    ensures unasked { (keys.new ≡ keys.old) ⊎ (¬ (IsUnasked (check_under terms.now nonce.now evidence.now false))) }
    ensures once { (keys.new ≡ keys.old) ⊎ AskedOnce (Y.told keys.old) (Y.told keys.new) terms.now.ak evidence.now.quote }
    ensures told { (Y.told keys.new).relations ≡ (Y.told keys.old).relations }
    // It met no fault, unless it is blamed; its count of faults never falls, and rose where it is blamed.
    ensures spared { IsErrOf result AppraiseError.Keys ⊎ ((Y.told keys.new).calls.faults ≡ (Y.told keys.old).calls.faults) }
    ensures cause { HasCause (Y.told keys.old).calls.faults (Y.told keys.new).calls.faults (IsErrOf result AppraiseError.Keys) }
    // Exactly so many entries are measured.
    ensures measured { IfOk result (λ found. (n : ℕ) × (steps.new ≡ steps.old + n)
        × InEachCase terms.now nonce.now kept evidence.now found.signed (λ c. Measures c found.outcome n)) }
    // None is, where there is no outcome; but memory may run out late where exclude patterns are searched for.
    ensures idle { IsErrOf result AppraiseError.Keys → steps.new ≡ steps.old }
    ensures plain { terms.now.policy.patterns ≡ [] → IsErr result → steps.new ≡ steps.old }
    // At most as many are as the list has lines, and none where a line is no entry.
    ensures cost { steps.new ≤ steps.old + length (lines_of evidence.now.list) }
    ensures unread { (place : ℕ) (fault : LineFault) → IsFirstBadLine evidence.now.list place fault → steps.new ≡ steps.old }
{
    let quote = match check_terms(alloc, terms, nonce, evidence, keys)? {
        Checked::Sound(quote) => quote,
        Checked::Refused(why, signed) => {
            return Ok(Found {
                outcome: Outcome::Verdict(Verdict::Invalid(why)),
                signed,
                next: None,
            });
        }
    };
    let outcome = judge_list(alloc, terms, kept, evidence, &quote, steps)?;
    Ok(Found {
        outcome,
        signed: true,
        next: next_of(terms, &quote, outcome),
    })
}

/// Checks a quote by the nine rules that look at nothing else, where it is to be what the terms want.
fn check_terms<Y: Keys>(
    alloc: Global,
    terms: &Terms,
    nonce: &Nonce,
    evidence: &Evidence,
    keys: &mut Y,
) -> Result<Checked, AppraiseError>
    ensures rules { IfOk result (ChecksAs (check_under terms.now nonce.now evidence.now)) }
    ensures answered { IfOk result (λ c. IsAnswered (Y.told keys.old).relations terms.now.ak (check_under terms.now nonce.now evidence.now (answer_of c))) }
    ensures question { IfOk result (λ c. IsUnasked (check_under terms.now nonce.now evidence.now false)
        ⊎ Asked (Y.told keys.old) (Y.told keys.new) terms.now.ak evidence.now.quote (Some (answer_of c))) }
    ensures fault { IsErrOf result AppraiseError.Keys → Asked (Y.told keys.old) (Y.told keys.new) terms.now.ak evidence.now.quote None }
    ensures asked { IsErrOf result AppraiseError.Keys → ¬ (IsUnasked (check_under terms.now nonce.now evidence.now false)) }
    ensures unasked { (keys.new ≡ keys.old) ⊎ (¬ (IsUnasked (check_under terms.now nonce.now evidence.now false))) }
    ensures once { (keys.new ≡ keys.old) ⊎ AskedOnce (Y.told keys.old) (Y.told keys.new) terms.now.ak evidence.now.quote }
    ensures told { (Y.told keys.new).relations ≡ (Y.told keys.old).relations }
    ensures spared { IsErrOf result AppraiseError.Keys ⊎ ((Y.told keys.new).calls.faults ≡ (Y.told keys.old).calls.faults) }
    ensures cause { HasCause (Y.told keys.old).calls.faults (Y.told keys.new).calls.faults (IsErrOf result AppraiseError.Keys) }
{
    let wanted = Wanted {
        bank: terms.bank(),
        mask: terms.mask(),
        ak: terms.ak(),
        nonce,
    };
    check_quote(alloc, &wanted, evidence, keys)
}

/// What is kept of the list that passed, where one did.
fn next_of(terms: &Terms, quote: &SoundQuote, outcome: Outcome) -> Option<Kept>
    requires { length quote.now.values ≡ size_of terms.now.bank * count_ones terms.now.mask }
    ensures next { result ≡ next_with terms.now quote.now.boot quote.now.values outcome }
    ensures sized { IfSome result (λ k. length k.pcr ≡ size_of terms.now.bank) }
{
    let Outcome::Verdict(Verdict::Pass(count)) = outcome else {
        return None;
    };
    let Some(pcr) = value(
        terms.bank(),
        terms.mask(),
        quote.values.as_slice(),
        LIST_PCR,
    ) else {
        unreachable!()
    };
    Some(Kept {
        boot: quote.boot,
        count,
        pcr,
    })
}
