//! Shares, and the books that made them.

ghost use Rattle.std.specs.Prelude.{◌≡◌, ◌≤◌};

use super::tickets::dropped;
use super::*;
use crate::bytes::{LIST, POLICY};
use kl_incr::appraise_from;
use kl_keys::{Keys, MacKeys};
use kl_pcr::Steps;
use kl_quote::Evidence;
use kl_states::{DropWhy, Op, Outcome};
use std::marker::Brand;
use std::sync::ledger::{Blank, Ledger};

/// How a book makes a share: the number of the release, the agent, the generation and the poll, each byte of V, the public key with
/// the quote that is bound to it, and the contact.
#[derive(Clone, Copy)]
pub struct Made {
    pub release: u64,
    pub agent: u64,
    pub generation: u64,
    pub poll: u64,
    pub v: u8,
    pub public: &'static str,
    pub quote: &'static str,
    pub contact: &'static str,
}

/// Installs the agent so often that its generation is the wanted one.
fn install(book: &mut Book, alloc: Global, made: &Made) -> Result<(), Fail> {
    let contact = String::from_str(alloc, made.contact)?;
    let ak = Vec::from_slice(alloc, b"k1")?;
    let policy = policy(alloc, POLICY)?;
    let terms = terms_of(alloc, contact, ak, made.v, policy);
    let terms = terms.ok().ok_or("the mask has PCRs 10 and 16")?;
    let added = book.add(alloc, agent(made.agent)?, terms);
    let _generation = added.ok().ok_or("the agent is not installed yet")?;
    for _ in 1..made.generation {
        replace(book, alloc, made)?;
    }
    Ok(())
}

fn replace(book: &mut Book, alloc: Global, made: &Made) -> Result<(), Fail> {
    let replaced = book.replace(alloc, &agent(made.agent)?, policy(alloc, POLICY)?);
    let _generation = replaced.ok().ok_or("the agent is installed")?;
    Ok(())
}

fn begin(book: &mut Book, alloc: Global, made: &Made) -> Result<Ticket, Fail> {
    let begun = book.begin(alloc, &agent(made.agent)?, nonce(b"n1")?, 0);
    Ok(begun.ok().ok_or("the agent may be polled")?)
}

fn evidence(alloc: Global, made: &Made) -> Result<Evidence, Fail> {
    let bank = String::from_str(alloc, "sha256")?;
    let public = String::from_str(alloc, made.public)?;
    let quote = String::from_str(alloc, made.quote)?;
    let list = String::from_str(alloc, LIST)?;
    Ok(Evidence::new(bank, 0, public, quote, list).ok_or("it is within the bound")?)
}

/// What the appraisal of this evidence finds for a ticket.
fn appraised<Y: Keys, L: Ledger>(
    alloc: Global,
    ticket: Ticket,
    evidence: Evidence,
    keys: &mut Y,
    blank: Blank,
) -> Result<Appraised, (Ticket, DropWhy)>
    requires name { blank.name ≡ L.name }
    requires parts { blank.parts ≡ L.parts }
    requires some { 1 ≤ blank.parts }
{
    let mut steps = Steps::<L>::of(blank);
    appraise_from(alloc, ticket, evidence, keys, &mut steps)
}

/// Closes the poll of what was appraised.
fn close(book: &mut Book, found: Result<Appraised, (Ticket, DropWhy)>) -> Result<(), Fail> {
    match found {
        Ok(done) => finish(book, done),
        Err((ticket, _why)) => {
            ticket.discard();
            Err(Fail::from("there is an outcome"))
        },
    }
}

fn finish(book: &mut Book, done: Appraised) -> Result<(), Fail> {
    match book.finish(done) {
        Ok(_closed) => Ok(()),
        Err((_why, done)) => {
            done.discard();
            Err(Fail::from("the poll is open"))
        },
    }
}

/// A pass of the agent, in the poll of the wanted number: those before it are dropped.
fn pass(book: &mut Book, alloc: Global, made: &Made) -> Result<(), Fail> {
    let evidence = evidence(alloc, made)?;
    let mut keys = MacKeys::new(alloc, &[]).ok().ok_or("memory")?;
    for _ in 1..made.poll {
        let ticket = begin(book, alloc, made)?;
        let _state = dropped(book, ticket);
    }
    let ticket = begin(book, alloc, made)?;
    let found = appraised::<_, Brand>(alloc, ticket, evidence, &mut keys, Blank::new(1));
    close(book, found)
}

fn release(book: &mut Book, alloc: Global, made: &Made) -> Result<Share, Fail> {
    match book.release(alloc, &agent(made.agent)?) {
        Ok(share) => Ok(share),
        Err(_) => Err(Fail::from("V is owed to the agent")),
    }
}

/// The state of the agent whose delivery is withdrawn by a share, None where that is refused.
pub fn withdrawn(book: &mut Book, share: Share) -> Option<Op> {
    match book.settle(share, Outcome::Withdrawn(DropWhy::Memory)) {
        Ok(settlement) => settlement.op,
        Err((_why, share)) => {
            share.discard();
            None
        },
    }
}

/// Whether a share is of these values.
pub fn is_made_so(share: &Share, made: &Made) -> Result<bool, Fail> {
    let numbers = (share.number(), share.generation(), share.poll());
    Ok(
        numbers == (made.release, made.generation, made.poll)
            && share.agent() == agent(made.agent)?
            && *share.v() == [made.v; 32]
            && share.public() == made.public
            && share.contact() == made.contact,
    )
}

/// The share of the release of the wanted number, the deliveries before it withdrawn, and the book that made it.
pub fn made_by(alloc: Global, made: &Made) -> Result<(Book, Share), Fail> {
    let mut book = book(alloc)?;
    install(&mut book, alloc, made)?;
    pass(&mut book, alloc, made)?;
    for _ in 1..made.release {
        let share = release(&mut book, alloc, made)?;
        let _state = withdrawn(&mut book, share);
    }
    let share = release(&mut book, alloc, made)?;
    Ok((book, share))
}
