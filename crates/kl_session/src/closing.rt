//! A verifier ends.

ghost use Rattle.std.specs.Prelude.{◌≡◌, List, ℕ, reverse};
ghost use Rattle.kl_history.specs.Legal.{Legal};
ghost use Rattle.kl_core.specs.Books.{past, with_more};
ghost use Rattle.kl_session.specs.Closing.{AreOpen, AreUnsettled, IsEnded, drops, withdraws};
ghost use Rattle.kl_session.specs.Inner.Tickets.{AreTickets, AreShares};

use crate::verifier::Verifier;
use kl_core::{Book, Share};
use kl_incr::Ticket;
use kl_states::{DropWhy, Outcome};

/// The last one first, so that the first is the next to be taken out.
fn turned<T>(mut row: Vec<T>) -> Vec<T>
    ensures { result.items ≡ reverse row.items }
{
    row.reverse();
    row
}

/// Drops the open polls, whose tickets these are, in their order.
fn drop_all(book: &mut Book, tickets: Vec<Ticket>)
    requires { AreTickets (past book.old) tickets.items }
    ensures dropped { (polls : List ℕ) × AreOpen (past book.old) polls × (book.new ≡ with_more (drops polls) book.old) }
    ensures legal { Legal book.new.history }
{
    let mut row = turned(tickets);
    while let Some(ticket) = row.pop() {
        match book.drop_own(ticket, DropWhy::End) {
            Ok(_) => {},
            Err(_) => unreachable!(),
        }
        let _len = book.len();
    }
    row.destroy_empty();
    let _len = book.len();
}

/// Withdraws the open releases, whose shares these are, in their order.
fn withdraw_all(book: &mut Book, shares: Vec<Share>)
    requires { AreShares (past book.old) shares.items }
    ensures withdrawn { (releases : List ℕ) × AreUnsettled (past book.old) releases
        × (book.new ≡ with_more (withdraws (past book.old) releases) book.old) }
{
    let mut row = turned(shares);
    while let Some(share) = row.pop() {
        match book.settle_own(share, Outcome::Withdrawn(DropWhy::End)) {
            Ok(_) => {},
            Err(_) => unreachable!(),
        }
        let _len = book.len();
    }
    row.destroy_empty();
}

impl Verifier {
    /// Ends the verifier. The polls that are open are dropped, in the order of their numbers, and then the releases that are
    /// open are withdrawn, in the order of theirs.
    pub(crate) fn close(self) -> Book
        ensures ended { IsEnded self.history result.history }
        ensures marks { result.marks ≡ self.marks }
        ensures legal { Legal result.history }
    {
        let Verifier {
            mut book,
            tickets,
            shares,
            moment: _,
            latest: _,
        } = self;
        drop_all(&mut book, tickets);
        withdraw_all(&mut book, shares);
        let _len = book.len();
        book
    }
}
