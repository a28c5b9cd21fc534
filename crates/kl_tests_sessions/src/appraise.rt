//! What no clause says: that evidence has an outcome where there is memory. The evidence and its outcomes were worked out
//! beside the definitions, by tools/evidence.py.

ghost use Rattle.std.specs.Prelude.{◌≡◌, ◌≤◌, IfOk, IfSome};
ghost use Rattle.kl_appraise.specs.Kept.{IsKept};

use crate::bytes::*;
use kl_appraise::*;
use kl_bank::Bank;
use kl_keys::MacKeys;
use kl_pcr::Steps;
use kl_policy::read_flat;
use kl_quote::Evidence;
use kl_states::{EntryCause, FailedCause, InvalidCause, Nonce, Verdict};
use std::alloc::Global;
use std::marker::Brand;
use std::sync::ledger::{Blank, Ledger};
use std::test::Fail;

const AK: &[u8] = b"k1";

/// PCRs 10 and 16.
pub const MASK: u32 = 1 << 10 | 1 << 16;

fn evidence(alloc: Global, start: u64, public: &str, quote: &str, list: &str) -> Option<Evidence> {
    let bank = String::from_str(alloc, "sha256").ok()?;
    let public = String::from_str(alloc, public).ok()?;
    let quote = String::from_str(alloc, quote).ok()?;
    let list = String::from_str(alloc, list).ok()?;
    Evidence::new(bank, start, public, quote, list)
}

/// The terms of an agent that quotes these PCRs.
pub fn terms(alloc: Global, mask: u32) -> Option<Terms> {
    let policy = read_flat(alloc, POLICY).ok()?;
    let contact = String::from_str(alloc, "agent").ok()?;
    let ak = Vec::from_slice(alloc, AK).ok()?;
    Terms::new(
        contact,
        Bank::Sha256,
        mask,
        Vec::new(alloc),
        ak,
        None,
        policy,
    )
    .ok()
}

fn keys(alloc: Global, faults: &[u64]) -> Option<MacKeys> {
    MacKeys::new(alloc, faults).ok()
}

/// What evidence gives behind the list that is kept.
fn found<L: Ledger>(
    alloc: Global,
    terms: &Terms,
    kept: Option<Kept>,
    evidence: &Evidence,
    steps: &mut Steps<L>,
) -> Option<Found>
    requires { IfSome kept (λ kept. IsKept terms.now.bank kept) }
    ensures { IfSome result (λ found. IfSome found.next (λ kept. IsKept terms.now.bank kept)) }
{
    let nonce = Nonce::from_bytes(b"n1")?;
    let mut keys = keys(alloc, &[])?;
    appraise_onto(alloc, terms, &nonce, kept, evidence, &mut keys, steps).ok()
}

/// What it gives as a whole list.
fn whole<L: Ledger>(
    alloc: Global,
    terms: &Terms,
    evidence: &Evidence,
    steps: &mut Steps<L>,
) -> Option<Verdict> {
    let nonce = Nonce::from_bytes(b"n1")?;
    let mut keys = keys(alloc, &[])?;
    let judged = appraise_whole(alloc, terms, &nonce, evidence, &mut keys, steps).ok()?;
    Some(judged.verdict)
}

/// The verdict on evidence as a whole list, and its outcome behind the list that is kept. A list that passes is kept in the
/// place of the one before.
fn appraised<L: Ledger>(
    alloc: Global,
    terms: &Terms,
    kept: &mut Option<Kept>,
    evidence: &Evidence,
    blank: Blank,
) -> Option<(Verdict, Outcome)>
    requires kept { IfSome kept.old (λ kept. IsKept terms.now.bank kept) }
    requires name { blank.name ≡ L.name }
    requires parts { blank.parts ≡ L.parts }
    requires some { 1 ≤ blank.parts }
    ensures { IfSome kept.new (λ kept. IsKept terms.now.bank kept) }
{
    let mut steps = Steps::<L>::of(blank);
    let verdict = whole(alloc, terms, evidence, &mut steps)?;
    let found = found(alloc, terms, *kept, evidence, &mut steps)?;
    *kept = found.next.or(*kept);
    Some((verdict, found.outcome))
}

/// Where a reply's list starts, what is quoted, the list, the verdict on it as a whole list, and its outcome behind those before.
type Reply = (u64, &'static str, &'static str, Verdict, Outcome);

/// What a reply gives.
fn replied<L: Ledger>(
    alloc: Global,
    terms: &Terms,
    kept: &mut Option<Kept>,
    reply: &Reply,
    blank: Blank,
) -> Option<(Verdict, Outcome)>
    requires kept { IfSome kept.old (λ kept. IsKept terms.now.bank kept) }
    requires name { blank.name ≡ L.name }
    requires parts { blank.parts ≡ L.parts }
    requires some { 1 ≤ blank.parts }
    ensures { IfSome kept.new (λ kept. IsKept terms.now.bank kept) }
{
    let (start, quote, list, _, _) = *reply;
    let evidence = evidence(alloc, start, "PUB", quote, list)?;
    appraised::<L>(alloc, terms, kept, &evidence, blank)
}

/// What is wrong with an identity's evidence, or why that isn't known.
fn identity(
    alloc: Global,
    public: &str,
    quote: &str,
    keys: &mut MacKeys,
) -> Option<Result<Option<InvalidCause>, AppraiseError>> {
    let nonce = Nonce::from_bytes(b"n1")?;
    let evidence = evidence(alloc, 0, public, quote, "")?;
    Some(check_identity(alloc, AK, &nonce, &evidence, keys))
}

const START: Verdict = Verdict::Invalid(InvalidCause::Start);

const UNKNOWN: Verdict = Verdict::Failed(FailedCause::Entry(2, EntryCause::Unknown));

const PASS_2: Verdict = Verdict::Pass(2);

const PASS_3: Verdict = Verdict::Pass(3);

/// Replies one after the other.
const REPLIES: [Reply; 9] = [
    (2, QUOTE_LONGER, LIST_LONGER, START, Outcome::Verdict(START)),
    (0, QUOTE, LIST, PASS_2, Outcome::Verdict(PASS_2)),
    (
        2,
        QUOTE_UNLISTED,
        LIST_UNLISTED,
        START,
        Outcome::Verdict(UNKNOWN),
    ),
    (2, QUOTE_REBOOTED, "", START, Outcome::Restart),
    (2, QUOTE, "", START, Outcome::Verdict(PASS_2)),
    (
        2,
        QUOTE_LONGER,
        LIST_LONGER,
        START,
        Outcome::Verdict(PASS_3),
    ),
    (2, QUOTE_LONGER, LIST_LONGER, START, Outcome::Verdict(START)),
    (0, QUOTE_REBOOTED, LIST, PASS_2, Outcome::Verdict(PASS_2)),
    (2, QUOTE, "", START, Outcome::Restart),
];

#[test]
fn a_list_is_continued(rt: HostRuntime) -> Result<(), Fail> {
    let terms = terms(rt.alloc(), MASK).ok_or("memory")?;
    let mut kept = None;
    for reply in &REPLIES {
        let found = replied::<Brand>(rt.alloc(), &terms, &mut kept, reply, Blank::new(1));
        assert!(rt; found == Some((reply.3, reply.4)));
    }
    Ok(())
}

/// Public keys and quotes, and what is wrong with them. The second question meets a fault, and so would a fourth.
const IDENTITIES: [(&str, &str, Result<Option<InvalidCause>, AppraiseError>); 4] = [
    ("PUB", QUOTE_IDENTITY, Ok(None)),
    ("PUB", QUOTE_IDENTITY, Err(AppraiseError::Keys)),
    ("PUC", QUOTE_IDENTITY, Ok(Some(InvalidCause::Binding))),
    ("PUB", "", Ok(Some(InvalidCause::Form(0)))),
];

#[test]
fn an_identity_is_quoted_by_pcr_16_alone(rt: HostRuntime) -> Result<(), Fail> {
    let mut keys = keys(rt.alloc(), &[2, 4]).ok_or("memory")?;
    for (public, quote, found) in IDENTITIES {
        assert!(rt; identity(rt.alloc(), public, quote, &mut keys) == Some(found));
    }
    Ok(())
}

#[test]
fn terms_have_pcrs_10_and_16_and_none_above_23(rt: HostRuntime) {
    for (mask, is_good) in [
        (MASK, true),
        (1 << 0 | MASK | 1 << 23, true),
        (1 << 0 | 1 << 10, false),
        (1 << 0 | 1 << 16, false),
        (MASK | 1 << 24, false),
    ] {
        assert!(rt; terms(rt.alloc(), mask).is_some() == is_good);
    }
}
