//! Why a session goes on no further.

ghost use Rattle.std.specs.Prelude.{◌≡◌};
ghost use Rattle.kl_session.specs.declared.stop.Stop.TheVariants.{Memory};

use std::alloc::AllocError;

/// Why a session goes on no further.
#[derive(Clone, Copy, Debug, PartialEq, Eq)]
pub enum Stop {
    /// A nonce or a secret was to be drawn, and the words met a fault or have too few bytes left.
    NoNonce,
    /// Memory ran out.
    Memory,
}

impl From<AllocError> for Stop {
    ghost from_gives = { λ _ e. e ≡ Memory };

    fn from(_e: AllocError) -> Stop {
        Stop::Memory
    }
}
