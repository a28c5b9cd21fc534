//! How much a book takes.

use super::*;

#[test]
fn the_1025th_agent_is_refused(rt: HostRuntime) -> Result<(), Fail> {
    let alloc = rt.alloc();
    let mut book = book(alloc)?;
    for number in 1..=1_024 {
        let _added = refusal_of_add(&mut book, alloc, number, "")?;
    }
    let refused = refusal_of_add(&mut book, alloc, 1_025, "")?;
    assert!(rt; (book.len(), refused) == (1_024, Some(Refusal::AgentsFull)));
    Ok(())
}

/// Installs an agent so many times, as long as it is not refused.
fn reactivate(book: &mut Book, alloc: Global, agent: &AgentId, times: u64) {
    for _ in 0..times {
        let _generation = book.reactivate(alloc, agent);
    }
}

/// Why no poll of an agent begins, None where one does.
fn refusal_of_begin(
    book: &mut Book,
    alloc: Global,
    agent: &AgentId,
) -> Result<Option<Refusal>, Fail> {
    Ok(match book.begin(alloc, agent, nonce(b"n1")?, 0) {
        Ok(ticket) => {
            ticket.discard();
            None
        },
        Err(why) => Some(why),
    })
}

#[test]
fn a_journal_takes_1000000_records(rt: HostRuntime) -> Result<(), Fail> {
    let alloc = rt.alloc();
    let mut book = book(alloc)?;
    let _added = refusal_of_add(&mut book, alloc, 1, "")?;
    let agent = agent(1)?;
    reactivate(&mut book, alloc, &agent, 999_998);
    let begun = refusal_of_begin(&mut book, alloc, &agent)?;
    let last = book.reactivate(alloc, &agent);
    let one_more = book.reactivate(alloc, &agent);
    assert!(rt;
        (begun, last, one_more)
            == (
                Some(Refusal::JournalRecords),
                Ok(1_000_000),
                Err(Refusal::JournalRecords)
            )
    );
    Ok(())
}
