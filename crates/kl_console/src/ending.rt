//! How a run ends.

ghost use Rattle.std.specs.Prelude.{◌≡◌};
ghost use Rattle.kl_console.specs.Inner.Turns.{status_of};

use kl_session::Stop;
use std::alloc::AllocError;

/// How a run ends.
#[derive(Clone, Copy, Debug, PartialEq, Eq)]
pub enum End {
    /// The script was read, each line was executed, and each text was written.
    Done,
    /// A line spells no command, which was written.
    Fault,
    /// The script met a fault.
    ReadFault,
    /// The output met a fault.
    WriteFault,
    /// A nonce or a secret was to be drawn, and could not be.
    NoNonce,
    /// A line is too long, or the script is, which was written.
    Over,
    /// Memory ran out.
    Memory,
}

impl End {
    /// The number with which the program ends.
    pub fn status(self) -> u8
        ensures { result ≡ status_of self }
    {
        match self {
            End::Done => 0,
            End::Fault => 3,
            End::ReadFault => 4,
            End::WriteFault => 5,
            End::NoNonce => 6,
            End::Over => 8,
            End::Memory => 70,
        }
    }
}

impl From<AllocError> for End {
    ghost use Rattle.std.specs.Prelude.{◌≡◌};
    ghost use Rattle.kl_console.specs.declared.ending.End.TheVariants.{Memory};

    ghost from_gives = { λ _ e. e ≡ Memory };

    fn from(_e: AllocError) -> End {
        End::Memory
    }
}

impl From<Stop> for End {
    ghost use Rattle.std.specs.Prelude.{◌≡◌};
    ghost use Rattle.kl_console.specs.Inner.Turns.{end_of};

    ghost from_gives = { λ stop e. e ≡ end_of stop };

    fn from(stop: Stop) -> End {
        match stop {
            Stop::NoNonce => End::NoNonce,
            Stop::Memory => End::Memory,
        }
    }
}
