//! The rules beyond the quote: where the list begins, the static PCRs, and the measurement list.

ghost use Rattle.std.specs.Prelude.{◌≡◌, ◌+◌, ◌*◌, ◌^◌, ◌<◌, ◌≤◌, ℕ, Bool, List, [], length, count_ones, IfOk, IfErr, IfSome, IsErr, IsOk};
ghost use Rattle.kl_attest.specs.Grammar.{Quoted};
ghost use Rattle.kl_bank.specs.Banks.{size_of};
ghost use Rattle.kl_entry.specs.Entries.{EntryFields};
ghost use Rattle.kl_entry.specs.Lines.{lines_of};
ghost use Rattle.kl_entry.specs.declared.fault.LineFault.{LineFault};
ghost use Rattle.kl_pcr.specs.Values.{value_at};
ghost use Rattle.kl_appraise.specs.Evidence.{Attests, HasValues};
ghost use Rattle.kl_appraise.specs.ListRules.{IsFirstBadLine, boot_of, line_cause, entry_cause};
ghost use Rattle.kl_appraise.specs.Kept.{IsKept, InEachCase};
ghost use Rattle.kl_appraise.specs.Inner.Listed.{IsBase, IsNoBase, IsWithin, JudgesEntries, JudgesList};

use crate::fault::AppraiseError;
use crate::judged::{Boot, Outcome};
use crate::kept::Kept;
use crate::listed::{ListFault, read_entries};
use crate::quoted::SoundQuote;
use crate::replayed::{Base, Cut, find_cut};
use crate::terms::Terms;
use kl_bank::Bank;
use kl_entry::{Entry, LineFault};
use kl_pcr::{Steps, first_wrong, value};
use kl_policy::{Memory, Why};
use kl_quote::Evidence;
use kl_states::{EntryCause, FailedCause, InvalidCause, LineCause, Verdict};
use std::alloc::Global;
use std::sync::ledger::Ledger;

/// The most entries that a measurement list may have.
const LIST_LIMIT: u64 = 131_072;

/// The PCR that the measurement list is extended into.
pub const LIST_PCR: u8 = 10;

/// The outcome of evidence whose quote breaks no rule.
pub fn judge_list<L: Ledger>(
    alloc: Global,
    terms: &Terms,
    kept: Option<Kept>,
    evidence: &Evidence,
    quote: &SoundQuote,
    steps: &mut Steps<L>,
) -> Result<Outcome, AppraiseError>
    requires kept { IfSome kept (λ k. IsKept terms.now.bank k) }
    requires sized { length quote.now.values ≡ size_of terms.now.bank * count_ones terms.now.mask }
    requires values { HasValues evidence.now.quote quote.now.values }
    requires boot { (t : Quoted) × Attests evidence.now.quote t × (boot_of t ≡ quote.now.boot) }
    ensures rules { IfOk result (λ o. (n : ℕ) × (steps.new ≡ steps.old + n)
        × ((nonce : List ℕ) (signed : Bool) (t : Quoted) → Attests evidence.now.quote t
        → InEachCase terms.now nonce kept evidence.now signed (λ c. JudgesList c t quote.now.values o n))) }
    ensures within { IfOk result (λ o. IsWithin o) }
    ensures memory { IfErr result (λ e. e ≡ AppraiseError.Memory) }
    ensures idle { terms.now.policy.patterns ≡ [] → IsErr result → steps.new ≡ steps.old }
    ensures cost { steps.new ≤ steps.old + length (lines_of evidence.now.list) }
    ensures unread { (place : ℕ) (fault : LineFault) → IsFirstBadLine evidence.now.list place fault → steps.new ≡ steps.old }
{
    let base = match base_of(terms.bank(), kept, evidence.start, quote.boot) {
        Ok(base) => base,
        Err(outcome) => return Ok(outcome),
    };
    let values = quote.values.as_slice();
    if let Some(pcr) = first_wrong(terms.bank(), terms.mask(), values, terms.statics()) {
        return Ok(failed(FailedCause::Pcr(pcr)));
    }
    let entries = match read_entries(alloc, evidence.list.as_str()) {
        Ok(entries) => entries,
        Err(ListFault::Line(place, fault)) => {
            return Ok(failed(bad_line(base.count, place, fault)));
        }
        Err(ListFault::Memory) => return Err(AppraiseError::Memory),
    };
    if base.count + entries.len() as u64 > LIST_LIMIT {
        return Ok(failed(FailedCause::ListFull));
    }
    let verdict = judge_entries(alloc, terms, &base, &entries, values, steps)?;
    Ok(Outcome::Verdict(verdict))
}

fn failed(cause: FailedCause) -> Outcome
    ensures { result ≡ Outcome.Verdict (Verdict.Failed cause) }
{
    Outcome::Verdict(Verdict::Failed(cause))
}

/// What a reply begins behind that starts at this entry and whose quote signs this boot.
fn base_of(bank: Bank, kept: Option<Kept>, start: u64, boot: Boot) -> Result<Base, Outcome>
    requires { IfSome kept (λ k. IsKept bank k) }
    ensures base { IfOk result (λ base. IsBase bank kept start boot base) }
    ensures short { IfOk result (λ base. base.count ≤ LIST_LIMIT) }
    ensures none { IfErr result (λ outcome. IsNoBase kept start boot outcome) }
{
    if start == 0 {
        let pcr = bank.zeros();
        return Ok(Base { count: 0, pcr });
    }
    let Some(kept) = kept else {
        return Err(Outcome::Verdict(Verdict::Invalid(InvalidCause::Start)));
    };
    if start != kept.count {
        return Err(Outcome::Verdict(Verdict::Invalid(InvalidCause::Start)));
    }
    if boot != kept.boot {
        return Err(Outcome::Restart);
    }
    Ok(Base {
        count: start,
        pcr: kept.pcr,
    })
}

/// The verdict on a list of entries that is not too long.
fn judge_entries<L: Ledger>(
    alloc: Global,
    terms: &Terms,
    base: &Base,
    entries: &[Entry<'_>],
    values: &[u8],
    steps: &mut Steps<L>,
) -> Result<Verdict, Memory>
    requires base { length base.now.pcr ≡ size_of terms.now.bank }
    requires values { length values.now ≡ size_of terms.now.bank * count_ones terms.now.mask }
    requires short { base.now.count + length entries.now ≤ LIST_LIMIT }
    ensures rules { IfOk result (λ verdict. (n : ℕ) × (steps.new ≡ steps.old + n)
        × JudgesEntries terms.now base.now entries.now (value_at terms.now.bank terms.now.mask values.now LIST_PCR) verdict n) }
    ensures cost { steps.new ≤ steps.old + length entries.now }
    ensures plain { terms.now.policy.patterns ≡ [] → IsOk result }
{
    let Some(quoted) = value(terms.bank(), terms.mask(), values, LIST_PCR) else {
        unreachable!()
    };
    match find_cut(
        alloc,
        terms.bank(),
        terms.policy(),
        base,
        entries,
        &quoted,
        steps,
    )? {
        None => Ok(Verdict::Failed(FailedCause::Unmatched)),
        Some(
            Cut {
                bad: Some((place, why)),
                ..
            },
        ) => Ok(Verdict::Failed(FailedCause::Entry(base.count + place as u64, entry_cause(why)))),
        Some(Cut { entries, bad: None }) => Ok(Verdict::Pass(base.count + entries as u64)),
    }
}

/// The cause that a line at this place of a reply gives, which begins at this entry.
fn bad_line(start: u64, place: usize, fault: LineFault) -> FailedCause
    requires { start + place < 2 ^ 64 }
    ensures { result ≡ FailedCause.Line (start + place) (line_cause fault) }
{
    FailedCause::Line(start + place as u64, line_cause(fault))
}

fn line_cause(fault: LineFault) -> LineCause
    ensures { result ≡ line_cause fault }
{
    match fault {
        LineFault::TooLong => LineCause::TooLong,
        LineFault::Pcr => LineCause::Pcr,
        LineFault::HashText => LineCause::HashText,
        LineFault::Template => LineCause::Template,
        LineFault::Digest => LineCause::Digest,
        LineFault::Path => LineCause::Path,
    }
}

fn entry_cause(why: Why) -> EntryCause
    ensures { result ≡ entry_cause why }
{
    match why {
        Why::Violation => EntryCause::Violation,
        Why::Inconsistent => EntryCause::Inconsistent,
        Why::Unknown => EntryCause::Unknown,
        Why::Digest => EntryCause::Digest,
    }
}
