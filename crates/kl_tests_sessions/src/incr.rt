//! What no clause says: that an appraisal has an outcome where there is memory, and that what is refused can be let go.

ghost use Rattle.std.specs.Prelude.{◌≡◌, ◌≤◌};

use crate::appraise::{MASK, terms};
use crate::bytes::*;
use kl_appraise::SharedTerms;
use kl_incr::*;
use kl_keys::MacKeys;
use kl_pcr::Steps;
use kl_quote::Evidence;
use kl_states::{AgentId, DropWhy, EntryCause, FailedCause, InvalidCause, Nonce, Verdict};
use std::alloc::Global;
use std::marker::Brand;
use std::sync::ledger::{Blank, Ledger};
use std::test::Fail;

fn shared_terms(alloc: Global) -> Option<SharedTerms> {
    SharedTerms::new(alloc, terms(alloc, MASK)?).ok()
}

/// The ticket of poll 7 of the agent `a1`, of generation 3, with the nonce `n1`; nothing is kept.
fn ticket(alloc: Global) -> Result<Ticket, Fail> {
    let agent = AgentId::from_bytes(b"a1").ok_or("it is an id")?;
    let nonce = Nonce::from_bytes(b"n1").ok_or("it is a nonce")?;
    let terms = shared_terms(alloc).ok_or("memory is left")?;
    Ok(Ticket::new(7, agent, 3, nonce, terms, None))
}

fn evidence(alloc: Global, quote: &str, list: &str) -> Result<Evidence, Fail> {
    let bank = String::from_str(alloc, "sha256")?;
    let public = String::from_str(alloc, "PUB")?;
    let quote = String::from_str(alloc, quote)?;
    let list = String::from_str(alloc, list)?;
    Ok(Evidence::new(bank, 0, public, quote, list).ok_or("it is within the bound")?)
}

/// What was found, how many entries are kept and whether the key object said yes, or why the ticket came back. Both are let go.
fn appraised<L: Ledger>(
    alloc: Global,
    evidence: Evidence,
    fault: u64,
    blank: Blank,
) -> Result<Result<(Outcome, u64, bool), (u64, DropWhy)>, Fail>
    requires name { blank.name ≡ L.name }
    requires parts { blank.parts ≡ L.parts }
    requires some { 1 ≤ blank.parts }
{
    let mut steps = Steps::<L>::of(blank);
    let mut keys = MacKeys::new(alloc, &[fault]).ok().ok_or("memory")?;
    let ticket = ticket(alloc)?;
    Ok(
        match appraise_from(alloc, ticket, evidence, &mut keys, &mut steps) {
            Ok(done) => {
                let kept = done.next().map_or(0, |kept| kept.count);
                let found = (done.finding(), kept, done.signed());
                done.discard();
                Ok(found)
            },
            Err((ticket, why)) => {
                let poll = ticket.poll();
                ticket.discard();
                Err((poll, why))
            },
        },
    )
}

#[test]
fn evidence_is_appraised_and_a_key_fault_gives_the_ticket_back(
    rt: HostRuntime,
) -> Result<(), Fail> {
    let pass = Outcome::Verdict(Verdict::Pass(2));
    let unknown = Outcome::Verdict(Verdict::Failed(FailedCause::Entry(2, EntryCause::Unknown)));
    let no_form = Outcome::Verdict(Verdict::Invalid(InvalidCause::Form(0)));
    for (quote, list, fault, wanted) in [
        (QUOTE, LIST, 2, Ok((pass, 2, true))),
        (
            QUOTE_UNLISTED,
            WHOLE_LIST_UNLISTED,
            2,
            Ok((unknown, 0, true)),
        ),
        ("", LIST, 1, Ok((no_form, 0, false))),
        (QUOTE, LIST, 1, Err((7, DropWhy::Keys))),
    ] {
        let evidence = evidence(rt.alloc(), quote, list)?;
        let found = appraised::<Brand>(rt.alloc(), evidence, fault, Blank::new(1))?;
        assert!(rt; found == wanted);
    }
    Ok(())
}
