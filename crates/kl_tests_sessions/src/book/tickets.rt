//! A ticket of other values closes nothing; one of the same values, which no book gave, closes as its own does.

use super::*;
use kl_appraise::SharedTerms;
use kl_states::{DropWhy, Op};

/// Tickets for a poll whose begin gave `(1, 1, 1, b"n1", POLICY)`, one after the other: poll, agent, generation, nonce and policy; and
/// the state of the agent where the ticket closes the poll.
const TICKETS: [(u64, u64, u64, &[u8], &str, Option<Op>); 7] = [
    (2, 1, 1, b"n1", POLICY, None),
    (1, 2, 1, b"n1", POLICY, None),
    (1, 1, 2, b"n1", POLICY, None),
    (1, 1, 1, b"n2", POLICY, None),
    (1, 1, 1, b"n1", "", None),
    (1, 1, 1, b"n1", POLICY, Some(Op::GetQuote)),
    (1, 1, 1, b"n1", POLICY, None),
];

fn ticket(
    alloc: Global,
    poll: u64,
    number: u64,
    generation: u64,
    text: &[u8],
    policy: &str,
) -> Result<Ticket, Fail> {
    let agent = agent(number)?;
    let nonce = nonce(text)?;
    let made = SharedTerms::new(alloc, terms(alloc, policy)?);
    let terms = made.ok().ok_or("memory")?;
    Ok(Ticket::new(poll, agent, generation, nonce, terms, None))
}

/// The state of the agent whose poll was dropped by a ticket, None where it was refused.
pub fn dropped(book: &mut Book, ticket: Ticket) -> Option<Op> {
    match book.drop_poll(ticket, DropWhy::Memory) {
        Ok(closed) => closed.op,
        Err((_why, ticket)) => {
            ticket.discard();
            None
        },
    }
}

#[test]
fn a_ticket_of_other_values_closes_nothing_and_an_equal_one_closes_once(
    rt: HostRuntime,
) -> Result<(), Fail> {
    let alloc = rt.alloc();
    let mut book = book(alloc)?;
    polled(&mut book, alloc)?.discard();
    for (poll, number, generation, nonce, policy, op) in TICKETS {
        let ticket = ticket(alloc, poll, number, generation, nonce, policy)?;
        assert!(rt; dropped(&mut book, ticket) == op);
    }
    Ok(())
}
