use crate::common::agent_of;
use kl_notice::*;
use kl_states::{EntryCause, FailedCause, Verdict};
use std::test::*;

const TEXTS: [(FailWhy, &str); 3] = [
    (
        FailWhy::Verdict(Verdict::Failed(FailedCause::Entry(2, EntryCause::Unknown))),
        "{\"agent\":\"db.example_1\",\"generation\":3,\"notice\":7,\"type\":\"revocation\",\"why\":\"failed entry 2 unknown\"}",
    ),
    (
        FailWhy::Losses,
        "{\"agent\":\"db.example_1\",\"generation\":3,\"notice\":7,\"type\":\"revocation\",\"why\":\"losses\"}",
    ),
    (
        FailWhy::Undelivered,
        "{\"agent\":\"db.example_1\",\"generation\":3,\"notice\":7,\"type\":\"revocation\",\"why\":\"undelivered\"}",
    ),
];

#[test]
fn a_notice_is_one_object_on_one_line(rt: HostRuntime) -> Result<(), Fail> {
    let agent = agent_of("db.example_1")?;
    for (why, expected) in TEXTS {
        let notice = Notice {
            number: 7,
            agent,
            generation: 3,
            why,
        };
        let text = text(rt.alloc(), &notice)?;
        assert!(rt; text.as_str() == expected, "{expected}");
    }
    Ok(())
}

#[test]
fn notices_are_delivered_in_order_and_once(rt: HostRuntime) -> Result<(), Fail> {
    let agent = agent_of("web-1")?;
    let mut outbox = Outbox::new(rt.alloc())?;
    assert!(rt; outbox.next().is_none() && !outbox.mark_delivered(1));
    outbox.reserve(rt.alloc(), 2)?;
    outbox.push(agent, 1, FailWhy::Losses);
    outbox.push(agent, 4, FailWhy::Undelivered);
    // The number that is marked, whether it is the next one's, and the number that is next then.
    for (number, is_next, then) in [
        (2, false, 1),
        (0, false, 1),
        (1, true, 2),
        (1, false, 2),
        (2, true, 0),
        (2, false, 0),
    ] {
        let marked = outbox.mark_delivered(number);
        let next = match outbox.next() {
            Some(notice) => notice.number,
            None => 0,
        };
        assert!(rt; marked == is_next && next == then, "{number}");
    }
    Ok(())
}
