//! Why a text is made no pattern.

ghost use Rattle.std.specs.Prelude.{Some};
ghost use Rattle.kl_exclude.specs.Texts.{fault_text};

use kl_base::Memory;
use std::alloc::{AllocError, AllocFailed};
use std::error::Error;
use std::fmt;

/// Why one text is made no pattern.
#[derive(Clone, Copy, Debug, PartialEq, Eq)]
pub enum PatternFault {
    /// The text is no pattern, or is nested too deep.
    Syntax,
    /// The text is refused as too large, which was counted.
    TooLarge,
    /// Memory ran out.
    Memory,
}

impl From<AllocError> for PatternFault {
    ghost use Rattle.std.specs.Prelude.{◌≡◌};
    ghost use Rattle.kl_exclude.specs.declared.fault.PatternFault.TheVariants.{Memory as no_memory};

    ghost from_gives = { λ _ fault. fault ≡ no_memory };

    fn from(_refused: AllocError) -> PatternFault {
        PatternFault::Memory
    }
}

impl From<Memory> for PatternFault {
    ghost use Rattle.std.specs.Prelude.{◌≡◌};
    ghost use Rattle.kl_exclude.specs.declared.fault.PatternFault.TheVariants.{Memory as no_memory};

    ghost from_gives = { λ _ fault. fault ≡ no_memory };

    fn from(_refused: Memory) -> PatternFault {
        PatternFault::Memory
    }
}

/// Why a list of texts is not compiled. Places in it count from 0.
#[derive(Clone, Copy, Debug, PartialEq, Eq)]
pub enum ExcludeFault {
    /// The first text that is no pattern, or is nested too deep.
    Syntax(usize),
    /// The text that was refused as too large.
    TooLarge(usize),
    /// Memory ran out.
    Memory,
}

impl fmt::Display for ExcludeFault {
    ghost output = { λ fault. Some (fault_text fault) };

    fn fmt<W: fmt::Write>(&self, f: &mut fmt::Formatter<W>) -> fmt::Result {
        match self {
            ExcludeFault::Syntax(place) => write!(f, "exclude {place} is no pattern"),
            ExcludeFault::TooLarge(place) => write!(f, "exclude {place} is too large"),
            ExcludeFault::Memory => write!(f, "out of memory"),
        }
    }
}

impl Error for ExcludeFault {}

impl From<Memory> for ExcludeFault {
    ghost use Rattle.std.specs.Prelude.{◌≡◌};
    ghost use Rattle.kl_exclude.specs.declared.fault.ExcludeFault.TheVariants.{Memory as no_memory};

    ghost from_gives = { λ _ fault. fault ≡ no_memory };

    fn from(_refused: Memory) -> ExcludeFault {
        ExcludeFault::Memory
    }
}

impl From<AllocError> for ExcludeFault {
    ghost use Rattle.std.specs.Prelude.{◌≡◌};
    ghost use Rattle.kl_exclude.specs.declared.fault.ExcludeFault.TheVariants.{Memory as no_memory};

    ghost from_gives = { λ _ fault. fault ≡ no_memory };

    fn from(_refused: AllocError) -> ExcludeFault {
        ExcludeFault::Memory
    }
}

impl<T: Drop> From<AllocFailed<T>> for ExcludeFault {
    ghost use Rattle.std.specs.Prelude.{◌≡◌};
    ghost use Rattle.kl_exclude.specs.declared.fault.ExcludeFault.TheVariants.{Memory as no_memory};

    ghost from_gives = { λ _ fault. fault ≡ no_memory };

    fn from(_refused: AllocFailed<T>) -> ExcludeFault {
        ExcludeFault::Memory
    }
}
