//! The lines that a session prints.

ghost use Rattle.std.specs.Prelude.{◌≡◌, ◌++◌, IfOk, IfSome, Some, None, string_bytes};
ghost use Rattle.kl_session.specs.Texts.{
  closed_line,
  done_line,
  installed_line,
  newline,
  no_notice_line,
  no_terms_text,
  notice_line,
  noticed_line,
  now_line,
  op_text,
  picked_line,
  polled_line,
  refused_line,
  released_line,
  settled_line,
  standing_line,
};
ghost use Rattle.kl_core.specs.Texts.{refusal_text};

use crate::naming::NoTerms;
use kl_core::{Closed, ClosedAs, Refusal, Settlement, Share};
use kl_incr::Ticket;
use kl_states::{AgentId, Op, State};
use std::alloc::{AllocError, Global};
use std::fmt;

/// How many bytes a line has room for from the start, which is enough for most: a line is not moved as it grows.
const ROOM: usize = 128;

/// A text as a line of its own.
pub fn line_of<D: fmt::Display + Drop>(alloc: Global, text: D) -> Result<String, AllocError>
    ensures ok { IfOk result (λ line. IfSome (D.output text) (λ bytes. string_bytes line ≡ bytes)) }
{
    let mut line = String::with_capacity(alloc, ROOM)?;
    write!(line, "{text}")?;
    Ok(line)
}

/// A command was refused by the desk.
pub fn refused_line(alloc: Global, why: Refusal) -> Result<String, AllocError>
    ensures { IfOk result (λ line. string_bytes line ≡ refused_line (refusal_text why)) }
{
    line_of(alloc, format_args!("refused {why}\n"))
}

/// A command was refused, since it names no terms.
pub fn no_terms_line(alloc: Global, why: NoTerms) -> Result<String, AllocError>
    ensures { IfOk result (λ line. string_bytes line ≡ refused_line (no_terms_text why)) }
{
    line_of(alloc, format_args!("refused {why}\n"))
}

/// The terms of an agent were installed.
pub fn installed_line(alloc: Global, agent: AgentId, generation: u64) -> Result<String, AllocError>
    ensures { IfOk result (λ line. string_bytes line ≡ installed_line agent generation) }
{
    let agent = agent.as_str();
    line_of(
        alloc,
        format_args!("installed {agent} generation {generation}\n"),
    )
}

/// This was done to an agent: it was stopped, say.
pub fn done_line(alloc: Global, what: &str, agent: AgentId) -> Result<String, AllocError>
    ensures { IfOk result (λ line. string_bytes line ≡ done_line what.now agent) }
{
    let agent = agent.as_str();
    line_of(alloc, format_args!("{what} {agent}\n"))
}

/// The moment was set, in milliseconds.
pub fn now_line(alloc: Global, moment: u64) -> Result<String, AllocError>
    ensures { IfOk result (λ line. string_bytes line ≡ now_line moment) }
{
    line_of(alloc, format_args!("now {moment}\n"))
}

/// A poll began.
pub fn polled_line(alloc: Global, ticket: &Ticket) -> Result<String, AllocError>
    ensures { IfOk result (λ line. string_bytes line ≡ polled_line ticket.now) }
{
    let (poll, generation, from) = (ticket.poll(), ticket.generation(), ticket.from());
    let agent = ticket.agent();
    let agent = agent.as_str();
    let nonce = ticket.nonce().as_str();
    line_of(
        alloc,
        format_args!("poll {poll} {agent} generation {generation} nonce {nonce} from {from}\n"),
    )
}

/// How an agent stands.
pub fn standing_line(alloc: Global, agent: AgentId, state: State) -> Result<String, AllocError>
    ensures { IfOk result (λ line. string_bytes line ≡ standing_line agent state) }
{
    let agent = agent.as_str();
    let State {
        op,
        generation,
        accepted,
    } = state;
    let name = op.name();
    line_of(
        alloc,
        format_args!("state {agent} {op} {name} generation {generation} accepted {accepted}\n"),
    )
}

/// Whether what was closed was current.
#[derive(Clone, Copy)]
struct Current(bool);

impl fmt::Display for Current {
    ghost use Rattle.std.specs.Prelude.{Some};
    ghost use Rattle.kl_session.specs.Texts.{current_text};

    ghost output = { λ c. Some (current_text c.0) };

    fn fmt<W: fmt::Write>(&self, f: &mut fmt::Formatter<W>) -> fmt::Result {
        f.write_str(if self.0 { "current" } else { "stale" })
    }
}

/// The state of an agent, where it is installed.
#[derive(Clone, Copy)]
struct Standing(Option<Op>);

impl fmt::Display for Standing {
    ghost use Rattle.std.specs.Prelude.{Some};
    ghost use Rattle.kl_session.specs.Texts.{op_text};

    ghost output = { λ s. Some (op_text s.0) };

    fn fmt<W: fmt::Write>(&self, f: &mut fmt::Formatter<W>) -> fmt::Result {
        match self.0 {
            Some(op) => write!(f, "{op}"),
            None => f.write_str("none"),
        }
    }
}

/// A poll was closed.
pub fn closed_line(alloc: Global, closed: Closed) -> Result<String, AllocError>
    ensures { IfOk result (λ line. string_bytes line ≡ closed_line closed) }
{
    let poll = closed.poll;
    let current = Current(closed.current);
    let state = Standing(closed.op);
    match closed.as_what {
        ClosedAs::Verdict(verdict) => {
            line_of(
                alloc,
                format_args!("verdict {poll} {verdict} {current} state {state}\n"),
            )
        },
        ClosedAs::Restart => line_of(
            alloc,
            format_args!("restart {poll} {current} state {state}\n"),
        ),
        ClosedAs::Lost(why) => line_of(
            alloc,
            format_args!("lost {poll} {why} {current} state {state}\n"),
        ),
        ClosedAs::Dropped(why) => line_of(
            alloc,
            format_args!("dropped {poll} {why} state {state}\n"),
        ),
    }
}

/// V was handed out.
pub fn released_line(alloc: Global, share: &Share) -> Result<String, AllocError>
    ensures { IfOk result (λ line. string_bytes line ≡ released_line share.now) }
{
    let (number, poll) = (share.number(), share.poll());
    let agent = share.agent();
    let agent = agent.as_str();
    line_of(
        alloc,
        format_args!("release {number} {agent} poll {poll}\n"),
    )
}

/// A release was settled.
pub fn settled_line(alloc: Global, settlement: Settlement) -> Result<String, AllocError>
    ensures { IfOk result (λ line. string_bytes line ≡ settled_line settlement) }
{
    let Settlement {
        number,
        outcome,
        current,
        op,
    } = settlement;
    let current = Current(current);
    let state = Standing(op);
    line_of(
        alloc,
        format_args!("settled {number} {outcome} {current} state {state}\n"),
    )
}

/// Which agent is polled next.
pub fn picked_line(alloc: Global, picked: Option<AgentId>) -> Result<String, AllocError>
    ensures { IfOk result (λ line. string_bytes line ≡ picked_line picked) }
{
    match picked {
        Some(agent) => line_of(alloc, format_args!("due {agent}\n")),
        None => String::from_str(alloc, "due none\n"),
    }
}

/// A notice, by its text.
pub fn told_line(alloc: Global, text: &str) -> Result<String, AllocError>
    ensures { IfOk result (λ line. string_bytes line ≡ text.now ++ newline) }
{
    line_of(alloc, format_args!("{text}\n"))
}

/// No notice is to be delivered.
pub fn none_noticed_line(alloc: Global) -> Result<String, AllocError>
    ensures { IfOk result (λ line. string_bytes line ≡ notice_line None) }
{
    String::from_str(alloc, "notice none\n")
}

/// A notice is delivered.
pub fn noticed_line(alloc: Global, number: u64) -> Result<String, AllocError>
    ensures { IfOk result (λ line. string_bytes line ≡ noticed_line number) }
{
    line_of(alloc, format_args!("noticed {number}\n"))
}

/// A notice of this number is not the next to be delivered.
pub fn no_notice_line(alloc: Global, number: u64) -> Result<String, AllocError>
    ensures { IfOk result (λ line. string_bytes line ≡ no_notice_line number) }
{
    line_of(alloc, format_args!("refused nonotice {number}\n"))
}
