//! Replies close their polls.

ghost use Rattle.std.specs.Prelude.{◌≡◌, ◌∷◌, [], IfOk, IfErr, string_bytes};
ghost use Rattle.kl_exclude.specs.Told.{MakerTold};
ghost use Rattle.kl_io.specs.Told.{WordsTold};
ghost use Rattle.kl_history.specs.declared.record.Record.TheVariants.{Dropped};
ghost use Rattle.kl_history.specs.Legal.{Legal};
ghost use Rattle.kl_core.specs.Books.{past, with_more};
ghost use Rattle.kl_core.specs.Tickets.{IsOpenTicket};
ghost use Rattle.kl_script.specs.Commands.{reply_fields};
ghost use Rattle.kl_session.specs.Outside.{outside};
ghost use Rattle.kl_core.specs.Closes.{IsClosed, closed_by, record_by};
ghost use Rattle.kl_session.specs.Replies.{DoesReply};
ghost use Rattle.kl_session.specs.Texts.{closed_line};
ghost use Rattle.kl_session.specs.Inner.Closed.{ClosesBook, IsFound};
ghost use Rattle.kl_session.specs.Inner.Stopping.{IsUndone};

use crate::numbered::take_numbered;
use crate::refusals::say_refused;
use crate::stop::Stop;
use crate::texts::closed_line;
use crate::verifier::Verifier;
use kl_core::{Book, Closed, ClosedAs, Refusal};
use kl_incr::{Appraised, Ticket, appraise_from};
use kl_keys::Keys;
use kl_pcr::Steps;
use kl_quote::Evidence;
use kl_script::Reply;
use kl_states::DropWhy;
use std::alloc::Global;
use std::sync::ledger::Ledger;

/// Closes an open poll by what was found.
fn finish(book: &mut Book, done: Appraised) -> Closed
    requires { IsOpenTicket (past book.old) done.ticket }
    ensures closed { IsClosed (past book.old) (record_by done.ticket.poll done.evidence done.signed done.finding result.current)
        done.ticket (closed_by done.finding) result }
    ensures history { book.new ≡ with_more (record_by done.ticket.poll done.evidence done.signed done.finding result.current ∷ []) book.old }
    ensures legal { Legal book.new.history }
    ensures found { IsFound (past book.old) done.ticket.poll done.evidence done.signed done.finding }
{
    let closed = match book.finish_own(done) {
        Ok(closed) => closed,
        Err(_) => unreachable!(),
    };
    let _len = book.len();
    closed
}

/// Drops an open poll.
fn drop_poll(book: &mut Book, ticket: Ticket, why: DropWhy) -> Closed
    requires { IsOpenTicket (past book.old) ticket }
    ensures closed { IsClosed (past book.old) (Dropped ticket.poll why) ticket (ClosedAs.Dropped why) result }
    ensures history { book.new ≡ with_more (Dropped ticket.poll why ∷ []) book.old }
    ensures legal { Legal book.new.history }
{
    let closed = match book.drop_own(ticket, why) {
        Ok(closed) => closed,
        Err(_) => unreachable!(),
    };
    let _len = book.len();
    closed
}

/// Appraises the evidence of the reply to an open poll, and closes the poll by what is found.
fn close_poll<Y: Keys, L: Ledger>(
    alloc: Global,
    book: &mut Book,
    ticket: Ticket,
    evidence: Evidence,
    keys: &mut Y,
    steps: &mut Steps<L>,
) -> Closed
    requires { IsOpenTicket (past book.old) ticket }
    ensures closes { (words : WordsTold) (maker : MakerTold) → ClosesBook (outside (Y.told keys.old) words maker steps.old) (outside (Y.told keys.new) words maker steps.new)
        book.old ticket evidence result book.new }
    ensures legal { Legal book.new.history }
{
    match appraise_from(alloc, ticket, evidence, keys, steps) {
        Ok(appraised) => finish(book, appraised),
        Err((ticket, why)) => drop_poll(book, ticket, why),
    }
}

/// What is said of a poll that was closed.
pub fn say_closed(alloc: Global, closed: Closed) -> Result<String, Stop>
    ensures line { IfOk result (λ line. string_bytes line ≡ closed_line closed) }
    ensures short { IfErr result (λ stop. stop ≡ Stop.Memory) }
{
    Ok(closed_line(alloc, closed)?)
}

impl Verifier {
    /// Closes a poll by a reply.
    pub(crate) fn reply<Y: Keys, L: Ledger>(
        &mut self,
        alloc: Global,
        reply: Reply,
        keys: &mut Y,
        steps: &mut Steps<L>,
    ) -> Result<String, Stop>
        ensures done { IfOk result (λ line. (words : WordsTold) (maker : MakerTold) → DoesReply (outside (Y.told keys.old) words maker steps.old)
            (outside (Y.told keys.new) words maker steps.new) (reply_fields reply) self.old self.new (string_bytes line)) }
        ensures short { IfErr result (λ stop. (words : WordsTold) (maker : MakerTold) → IsUndone stop (outside (Y.told keys.old) words maker steps.old)
            (outside (Y.told keys.new) words maker steps.new) self.old self.new (DoesReply (outside (Y.told keys.old) words maker steps.old)
            (outside (Y.told keys.new) words maker steps.new) (reply_fields reply) self.old self.new)) }
    {
        let Reply { poll, evidence } = reply;
        match take_numbered(&mut self.tickets, poll) {
            Some(ticket) => {
                let closed = close_poll(alloc, &mut self.book, ticket, evidence, keys, steps);
                say_closed(alloc, closed)
            },
            None => say_refused(alloc, Refusal::NoPoll(poll)),
        }
    }
}
