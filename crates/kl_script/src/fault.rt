//! Why a line gave no command.

ghost use Rattle.std.specs.Prelude.{◌≡◌};
ghost use Rattle.kl_script.specs.declared.fault.CommandFault.TheVariants.{Memory};

use std::alloc::{AllocError, AllocFailed};

/// Why a line, or a part of one, gave nothing.
#[derive(Clone, Copy, Debug, PartialEq, Eq)]
pub enum CommandFault {
    /// The line spells no command, or the part of it no such word.
    NoCommand,
    /// Memory ran out. The line may spell a command.
    Memory,
}

impl From<AllocError> for CommandFault {
    ghost from_gives = { λ _ e. e ≡ Memory };

    fn from(_e: AllocError) -> CommandFault {
        CommandFault::Memory
    }
}

impl<T: Drop> From<AllocFailed<T>> for CommandFault {
    ghost from_gives = { λ _ e. e ≡ Memory };

    fn from(_e: AllocFailed<T>) -> CommandFault {
        CommandFault::Memory
    }
}
