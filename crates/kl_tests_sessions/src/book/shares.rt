//! A share of other values settles nothing; one of the same values, which another book made, settles as its own does.

use super::made::{Made, is_made_so, made_by, withdrawn};
use super::*;
use crate::bytes::{OTHER_QUOTE, QUOTE};
use kl_states::Op;

/// How the release was made that is to be settled.
const OWN: Made = Made {
    release: 1,
    agent: 1,
    generation: 1,
    poll: 1,
    v: 7,
    public: "PUB",
    quote: QUOTE,
    contact: "127.0.0.1:9002",
};

/// Shares for it, one after the other, each made by a book of its own, and the state of the agent where the share settles the
/// release.
const SHARES: [(Made, Option<Op>); 9] = [
    (Made { release: 2, ..OWN }, None),
    (Made { agent: 2, ..OWN }, None),
    (
        Made {
            generation: 2,
            ..OWN
        },
        None,
    ),
    (Made { poll: 2, ..OWN }, None),
    (Made { v: 8, ..OWN }, None),
    (
        Made {
            public: "PUC",
            quote: OTHER_QUOTE,
            ..OWN
        },
        None,
    ),
    (
        Made {
            contact: "127.0.0.1:9003",
            ..OWN
        },
        None,
    ),
    (OWN, Some(Op::ProvideV)),
    (OWN, None),
];

/// Whether a book of its own makes a share as wanted, and the state of the agent where it settles this book's release.
fn settled_by(book: &mut Book, alloc: Global, made: &Made) -> Result<(bool, Option<Op>), Fail> {
    let (_other, share) = made_by(alloc, made)?;
    let made_so = is_made_so(&share, made);
    let state = withdrawn(book, share);
    Ok((made_so?, state))
}

#[test]
fn a_share_of_other_values_settles_nothing_and_an_equal_one_settles_once(
    rt: HostRuntime,
) -> Result<(), Fail> {
    let alloc = rt.alloc();
    let (mut book, own) = made_by(alloc, &OWN)?;
    own.discard();
    for (made, op) in SHARES {
        assert!(rt; settled_by(&mut book, alloc, &made)? == (true, op));
    }
    Ok(())
}
