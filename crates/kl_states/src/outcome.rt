//! How a poll or a delivery ends that gives no verdict.

ghost use Rattle.std.specs.Prelude.{Some};
ghost use Rattle.kl_states.specs.Ends.{lost_text, drop_text, outcome_text};

use std::fmt;

/// Why a poll was lost: no evidence came back.
#[derive(Clone, Copy, Debug, PartialEq, Eq)]
pub enum LostWhy {
    /// The link to the agent failed.
    Link,
    /// It was named lost by a command.
    Named,
    /// The reply ended too soon.
    Ended,
    /// The reply has no head of HTTP.
    Head,
    /// The reply's length is not stated once and in decimal digits.
    Length,
    /// The reply is sent in chunks.
    Chunked,
    /// The reply has another code than 200.
    Status(u16),
    /// The reply's body is no integrity body.
    Body,
    /// The reply is longer than it may be.
    TooLong,
}

/// Why a poll was dropped, or a delivery withdrawn: it counts neither for nor against the agent.
#[derive(Clone, Copy, Debug, PartialEq, Eq)]
pub enum DropWhy {
    /// The key object could not be asked.
    Keys,
    /// Memory ran out.
    Memory,
    /// The verifier ended.
    End,
}

/// How the delivery of a released key share ended.
#[derive(Clone, Copy, Debug, PartialEq, Eq)]
pub enum Outcome {
    /// The agent has it.
    Arrived,
    /// The agent has not said that it has it.
    Missed,
    /// It was not sent.
    Withdrawn(DropWhy),
}

impl fmt::Display for LostWhy {
    ghost output = { λ why. Some (lost_text why) };

    fn fmt<W: fmt::Write>(&self, f: &mut fmt::Formatter<W>) -> fmt::Result {
        match self {
            LostWhy::Link => f.write_str("link"),
            LostWhy::Named => f.write_str("named"),
            LostWhy::Ended => f.write_str("ended"),
            LostWhy::Head => f.write_str("head"),
            LostWhy::Length => f.write_str("length"),
            LostWhy::Chunked => f.write_str("chunked"),
            LostWhy::Status(code) => write!(f, "status {code}"),
            LostWhy::Body => f.write_str("body"),
            LostWhy::TooLong => f.write_str("toolong"),
        }
    }
}

impl fmt::Display for DropWhy {
    ghost output = { λ why. Some (drop_text why) };

    fn fmt<W: fmt::Write>(&self, f: &mut fmt::Formatter<W>) -> fmt::Result {
        f.write_str(match self {
            DropWhy::Keys => "keys",
            DropWhy::Memory => "memory",
            DropWhy::End => "end",
        })
    }
}

impl fmt::Display for Outcome {
    ghost output = { λ outcome. Some (outcome_text outcome) };

    fn fmt<W: fmt::Write>(&self, f: &mut fmt::Formatter<W>) -> fmt::Result {
        match self {
            Outcome::Arrived => f.write_str("arrived"),
            Outcome::Missed => f.write_str("missed"),
            Outcome::Withdrawn(why) => write!(f, "withdrawn-{why}"),
        }
    }
}
