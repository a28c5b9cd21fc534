//! Polls are given up as lost.

ghost use Rattle.std.specs.Prelude.{◌≡◌, ◌∷◌, [], IfOk, IfErr, string_bytes};
ghost use Rattle.kl_states.specs.declared.outcome.LostWhy.TheVariants.{Named};
ghost use Rattle.kl_history.specs.Legal.{Legal};
ghost use Rattle.kl_core.specs.Books.{past, with_more};
ghost use Rattle.kl_core.specs.Closes.{IsClosed, lost_record};
ghost use Rattle.kl_core.specs.Tickets.{IsOpenTicket};
ghost use Rattle.kl_session.specs.Losing.{DoesLose};
ghost use Rattle.kl_session.specs.Inner.Stopping.{IsShort};

use crate::numbered::take_numbered;
use crate::refusals::say_refused;
use crate::replying::say_closed;
use crate::stop::Stop;
use crate::verifier::Verifier;
use kl_core::{Book, Closed, ClosedAs, Refusal};
use kl_incr::Ticket;
use kl_states::LostWhy;
use std::alloc::Global;

/// Closes an open poll as lost.
fn lose_poll(book: &mut Book, ticket: Ticket) -> Closed
    requires { IsOpenTicket (past book.old) ticket }
    ensures closed { IsClosed (past book.old) (lost_record ticket.poll Named result.current) ticket (ClosedAs.Lost Named) result }
    ensures history { book.new ≡ with_more (lost_record ticket.poll Named result.current ∷ []) book.old }
    ensures legal { Legal book.new.history }
{
    let closed = match book.lose_own(ticket, LostWhy::Named) {
        Ok(closed) => closed,
        Err(_) => unreachable!(),
    };
    let _len = book.len();
    closed
}

impl Verifier {
    /// Gives an open poll up as lost.
    pub(crate) fn lose(&mut self, alloc: Global, poll: u64) -> Result<String, Stop>
        ensures done { IfOk result (λ line. DoesLose poll self.old self.new (string_bytes line)) }
        ensures short { IfErr result (λ stop. IsShort stop self.old self.new (DoesLose poll self.old self.new)) }
    {
        match take_numbered(&mut self.tickets, poll) {
            Some(ticket) => {
                let closed = lose_poll(&mut self.book, ticket);
                say_closed(alloc, closed)
            },
            None => say_refused(alloc, Refusal::NoPoll(poll)),
        }
    }
}
