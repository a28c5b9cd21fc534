//! How an agent stands with its verifier.

ghost use Rattle.std.specs.Prelude.{◌≡◌, ◌≢◌, IfSome, IfNone, Some};
ghost use Rattle.kl_states.specs.Ops.{number_of, name_of, is_live, is_owed};
ghost use Rattle.kl_states.specs.declared.op.Op.{Op as AnyOp};

use std::fmt;

/// The operational state of an agent, with Keylime's numbers and names.
#[derive(Clone, Copy, Debug, PartialEq, Eq)]
pub enum Op {
    /// The registrar has an active record of it.
    Registered,
    /// It is installed, and no poll of its installed generation began.
    Start,
    /// Keylime's word for an agent that is kept and not polled; never entered here.
    Saved,
    /// It is polled.
    GetQuote,
    /// Its last poll was lost.
    GetQuoteRetry,
    /// It passed, and its key share V is to be released.
    ProvideV,
    /// It passed, and V is to be released again, since a delivery was missed.
    ProvideVRetry,
    /// Its state is not allowed, or it could not be reached too often.
    Failed,
    /// It was removed.
    Terminated,
    /// Its quote proves nothing.
    InvalidQuote,
    /// Its tenant stopped it.
    TenantFailed,
}

impl Op {
    /// The state's number, from 0 to 10.
    pub fn number(self) -> u8
        ensures { result ≡ number_of self }
    {
        match self {
            Op::Registered => 0,
            Op::Start => 1,
            Op::Saved => 2,
            Op::GetQuote => 3,
            Op::GetQuoteRetry => 4,
            Op::ProvideV => 5,
            Op::ProvideVRetry => 6,
            Op::Failed => 7,
            Op::Terminated => 8,
            Op::InvalidQuote => 9,
            Op::TenantFailed => 10,
        }
    }

    /// The state's name, in capitals.
    pub fn name(self) -> &'static str
        ensures { result.now ≡ name_of self }
    {
        match self {
            Op::Registered => "REGISTERED",
            Op::Start => "START",
            Op::Saved => "SAVED",
            Op::GetQuote => "GET_QUOTE",
            Op::GetQuoteRetry => "GET_QUOTE_RETRY",
            Op::ProvideV => "PROVIDE_V",
            Op::ProvideVRetry => "PROVIDE_V_RETRY",
            Op::Failed => "FAILED",
            Op::Terminated => "TERMINATED",
            Op::InvalidQuote => "INVALID_QUOTE",
            Op::TenantFailed => "TENANT_FAILED",
        }
    }

    /// The state of a number, or None where no state has it.
    pub fn from_number(n: u8) -> Option<Op>
        ensures some { IfSome result (λ op. number_of op ≡ n) }
        ensures none { IfNone result ((op : AnyOp) → number_of op ≢ n) }
    {
        Some(match n {
            0 => Op::Registered,
            1 => Op::Start,
            2 => Op::Saved,
            3 => Op::GetQuote,
            4 => Op::GetQuoteRetry,
            5 => Op::ProvideV,
            6 => Op::ProvideVRetry,
            7 => Op::Failed,
            8 => Op::Terminated,
            9 => Op::InvalidQuote,
            10 => Op::TenantFailed,
            _ => return None,
        })
    }
}

/// Its number.
impl fmt::Display for Op {
    ghost use Rattle.std.specs.Prelude.{decimal};

    ghost output = { λ op. Some (decimal (number_of op)) };

    fn fmt<W: fmt::Write>(&self, f: &mut fmt::Formatter<W>) -> fmt::Result {
        let number = self.number();
        write!(f, "{number}")
    }
}

/// Whether a poll of an agent in this state may begin: the agent is live.
pub fn may_begin(op: Op) -> bool
    ensures { result ≡ is_live op }
{
    matches!(
        op,
        Op::Start | Op::GetQuote | Op::GetQuoteRetry | Op::ProvideV | Op::ProvideVRetry
    )
}

/// Whether V of an agent in this state may be released.
pub fn may_release(op: Op) -> bool
    ensures { result ≡ is_owed op }
{
    matches!(op, Op::ProvideV | Op::ProvideVRetry)
}

/// What a verifier says of an installed agent.
#[derive(Clone, Copy, Debug, PartialEq, Eq)]
pub struct State {
    /// Its operational state.
    pub op: Op,
    /// The number of its installed policy generation.
    pub generation: u64,
    /// How many entries of its measurement list are accepted.
    pub accepted: u64,
}
