//! The replay of a measurement list, up to the quoted value of PCR 10.

ghost use Rattle.std.specs.Prelude.{◌≡◌, ◌+◌, ◌<◌, ◌≤◌, ◌↔◌, [], IsTrue, IsOk, length, take, IfOk, IfSome, IfNone};
ghost use Rattle.kl_bank.specs.Banks.{size_of};
ghost use Rattle.kl_entry.specs.Entries.{data_of};
ghost use Rattle.kl_policy.specs.Policy.{IsFirstBad};
ghost use Rattle.kl_appraise.specs.Inner.Listed.{IsShortest, NoneGives, with_next};

use kl_bank::{Bank, Digest};
use kl_entry::{Entry, EntryData, consistent_with};
use kl_pcr::{Steps, measured_with};
use kl_policy::{Judge, Memory, Policy, Why};
use std::alloc::Global;
use std::sync::ledger::Ledger;

/// The accepted entries that a reply begins behind.
#[derive(Clone, Copy)]
pub struct Base {
    /// How many they are.
    pub count: u64,
    /// What PCR 10 holds after them.
    pub pcr: Digest,
}

/// The beginning of a reply's entries that a quote covers.
#[derive(Clone, Copy)]
pub struct Cut {
    /// How many entries it has.
    pub entries: usize,
    /// The first of them that the policy does not allow, if there is one: its place from 0, and why.
    pub bad: Option<(usize, Why)>,
}

/// The shortest beginning of the entries that, extended onto the base, gives the quoted value, if one
/// does. It may be empty where the base is not. No entry behind it is measured.
///
/// # Errors
///
/// `Memory` where memory runs out while the policy's exclude patterns are searched for.
pub fn find_cut<L: Ledger>(
    alloc: Global,
    bank: Bank,
    policy: &Policy,
    base: &Base,
    entries: &[Entry<'_>],
    quoted: &Digest,
    steps: &mut Steps<L>,
) -> Result<Option<Cut>, Memory>
    requires { length base.now.pcr ≡ size_of bank }
    ensures found { IfOk result (λ o. IfSome o (λ cut. IsShortest bank base.now entries.now quoted.now cut.entries)) }
    ensures bad { IfOk result (λ o. IfSome o (λ cut. IsFirstBad policy.now (take cut.entries entries.now) cut.bad)) }
    ensures none { IfOk result (λ o. IfNone o (NoneGives bank base.now entries.now quoted.now (length entries.now))) }
    ensures cut_cost { IfOk result (λ o. IfSome o (λ cut. steps.new ≡ steps.old + cut.entries)) }
    ensures cost { IfOk result (λ o. IfNone o (steps.new ≡ steps.old + length entries.now)) }
    ensures most { steps.new ≤ steps.old + length entries.now }
    ensures plain { policy.now.patterns ≡ [] → IsOk result }
{
    if is_given(base, quoted) {
        return Ok(Some(Cut {
            entries: 0,
            bad: None,
        }));
    }
    let mut judge = Judge::new(policy);
    let mut held = base.pcr;
    let mut bad = None;
    let mut laid_out = EntryData::new();
    for (i, entry) in entries.iter().enumerate() {
        laid_out.lay_out(entry);
        held = bank.extend(&held, &measured_with(bank, entry, &laid_out, steps));
        bad = first_bad(alloc, bad, &mut judge, i, entry, &laid_out)?;
        if held.as_slice() == quoted.as_slice() {
            return Ok(Some(Cut {
                entries: i + 1,
                bad,
            }));
        }
    }
    Ok(None)
}

/// Whether the base alone gives the quoted value, without a further entry.
fn is_given(base: &Base, quoted: &Digest) -> bool
    ensures { IsTrue result ↔ ((0 < base.now.count) × (base.now.pcr ≡ quoted.now)) }
{
    base.count > 0 && base.pcr.as_slice() == quoted.as_slice()
}

/// The first entry that the policy does not allow, once this entry is looked at too. It is not looked
/// at where an earlier one is not allowed.
fn first_bad(
    alloc: Global,
    bad: Option<(usize, Why)>,
    judge: &mut Judge<'_>,
    place: usize,
    entry: &Entry<'_>,
    laid_out: &EntryData,
) -> Result<Option<(usize, Why)>, Memory>
    requires { laid_out.now ≡ data_of entry.now }
    ensures bad { IfOk result (λ found. found ≡ with_next judge.old bad place entry.now) }
    ensures plain { judge.old.patterns ≡ [] → IsOk result }
    ensures same { judge.new ≡ judge.old }
{
    match bad {
        Some(found) => Ok(Some(found)),
        None => match judge.why(alloc, entry, consistent_with(entry, laid_out))? {
            Some(why) => Ok(Some((place, why))),
            None => Ok(None),
        },
    }
}
