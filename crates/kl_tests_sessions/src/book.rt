//! What no clause says and no stored script plays: that calls are done with ample memory up to the limits of a book, and that a
//! ticket or a share of other values ends nothing.

mod limits;
mod made;
mod shares;
mod tickets;

use crate::bytes::POLICY;
use kl_appraise::{Terms, TermsFault};
use kl_bank::Bank;
use kl_core::*;
use kl_policy::{Policy, read_flat};
use kl_states::{AgentId, Nonce};
use std::alloc::Global;
use std::test::*;

/// The number's agent: a letter and two digits.
fn agent(number: u64) -> Result<AgentId, Fail> {
    let name = [
        b'a' + (number / 100 % 26) as u8,
        b'0' + (number / 10 % 10) as u8,
        b'0' + (number % 10) as u8,
    ];
    Ok(AgentId::from_bytes(&name).ok_or("a letter and two digits name an agent")?)
}

fn nonce(text: &[u8]) -> Result<Nonce, Fail> {
    Ok(Nonce::from_bytes(text).ok_or("letters and digits are a nonce")?)
}

fn policy(alloc: Global, text: &str) -> Result<Policy, Fail> {
    Ok(read_flat(alloc, text).ok().ok_or("the policy is flat")?)
}

/// Terms of PCRs 10 and 16, with a V of such bytes.
fn terms_of(
    alloc: Global,
    contact: String,
    ak: Vec<u8>,
    v: u8,
    policy: Policy,
) -> Result<Terms, TermsFault> {
    let (mask, statics, v) = (0x10400, Vec::new(alloc), Some([v; 32]));
    Terms::new(contact, Bank::Sha256, mask, statics, ak, v, policy)
}

/// The same with this policy.
fn terms(alloc: Global, text: &str) -> Result<Terms, Fail> {
    let contact = String::from_str(alloc, "127.0.0.1:9002")?;
    let ak = Vec::from_slice(alloc, b"k1")?;
    let policy = policy(alloc, text)?;
    let made = terms_of(alloc, contact, ak, 7, policy);
    Ok(made.ok().ok_or("the mask has PCRs 10 and 16")?)
}

fn book(alloc: Global) -> Result<Book, Fail> {
    Ok(Book::new(alloc).ok().ok_or("memory")?)
}

/// Why an agent is not added, None where it is.
fn refusal_of_add(
    book: &mut Book,
    alloc: Global,
    number: u64,
    text: &str,
) -> Result<Option<Refusal>, Fail> {
    let terms = terms(alloc, text)?;
    Ok(match book.add(alloc, agent(number)?, terms) {
        Ok(_generation) => None,
        Err((why, _terms)) => Some(why),
    })
}

/// Adds agent 1, and begins its first poll with the nonce `n1`.
fn polled(book: &mut Book, alloc: Global) -> Result<Ticket, Fail> {
    let _refused = refusal_of_add(book, alloc, 1, POLICY)?;
    match book.begin(alloc, &agent(1)?, nonce(b"n1")?, 0) {
        Ok(ticket) => Ok(ticket),
        Err(_) => Err(Fail::from("an agent that is added may be polled")),
    }
}
