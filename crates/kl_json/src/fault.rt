//! Why JSON is not what was asked for.

ghost use Rattle.std.specs.Prelude.{Some};
ghost use Rattle.kl_json.specs.Texts.{fault_text};

use kl_base::Memory;
use std::alloc::AllocError;
use std::error::Error;
use std::fmt;

/// Why a text or a value is not what was asked for.
#[derive(Clone, Copy, Debug, PartialEq, Eq)]
pub enum JsonFault {
    /// The text is no JSON.
    NotJson,
    /// There is no member of this name, or the value is no object.
    Missing(&'static str),
    /// The member of this name is of another kind.
    Kind(&'static str),
    /// The number that is the member of this name is too large.
    Range(&'static str),
    /// There was no memory left.
    Memory,
}

impl fmt::Display for JsonFault {
    ghost output = { λ fault. Some (fault_text fault) };

    fn fmt<W: fmt::Write>(&self, f: &mut fmt::Formatter<W>) -> fmt::Result {
        match self {
            JsonFault::NotJson => f.write_str("the text is no JSON"),
            JsonFault::Missing(name) => write!(f, "there is no member {name}"),
            JsonFault::Kind(name) => write!(f, "the member {name} is of another kind"),
            JsonFault::Range(name) => write!(f, "the number {name} is too large"),
            JsonFault::Memory => f.write_str("out of memory"),
        }
    }
}

impl Error for JsonFault {}

impl From<Memory> for JsonFault {
    ghost use Rattle.std.specs.Prelude.{◌≡◌};
    ghost use Rattle.kl_json.specs.declared.fault.JsonFault.TheVariants.{Memory as no_memory};

    ghost from_gives = { λ _ fault. fault ≡ no_memory };

    fn from(_refused: Memory) -> JsonFault {
        JsonFault::Memory
    }
}

impl From<AllocError> for JsonFault {
    ghost use Rattle.std.specs.Prelude.{◌≡◌};
    ghost use Rattle.kl_json.specs.declared.fault.JsonFault.TheVariants.{Memory as no_memory};

    ghost from_gives = { λ _ fault. fault ≡ no_memory };

    fn from(_refused: AllocError) -> JsonFault {
        JsonFault::Memory
    }
}
