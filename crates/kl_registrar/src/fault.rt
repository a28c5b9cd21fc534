//! Why the registrar refuses a call.

ghost use Rattle.std.specs.Prelude.{◌≡◌, Some};
ghost use Rattle.kl_registrar.specs.Answers.{fault_of};
ghost use Rattle.kl_registrar.specs.Texts.{fault_text};
ghost use Rattle.kl_registrar.specs.declared.fault.RegFault.TheVariants.{Memory as no_memory};

use kl_base::Memory;
use kl_keys::KeysError;
use std::alloc::AllocError;
use std::fmt;

/// Why a call was not done. It left all records as they were.
#[derive(Clone, Copy, Debug, PartialEq, Eq, Drop)]
pub enum RegFault {
    /// 1,024 other agents have a record.
    Full,
    /// The keys met a fault as they were asked for the blob.
    KeysFault,
    /// The agent has no record.
    NoAgent,
    /// The text is not the agent's tag under the secret of its record.
    WrongTag,
    /// The agent's record is not active.
    NotActive,
    /// Memory ran out.
    Memory,
}

/// One word.
impl fmt::Display for RegFault {
    ghost output = { λ fault. Some (fault_text fault) };

    fn fmt<W: fmt::Write>(&self, f: &mut fmt::Formatter<W>) -> fmt::Result {
        f.write_str(match self {
            RegFault::Full => "full",
            RegFault::KeysFault => "keys",
            RegFault::NoAgent => "noagent",
            RegFault::WrongTag => "wrongtag",
            RegFault::NotActive => "notactive",
            RegFault::Memory => "memory",
        })
    }
}

impl From<KeysError> for RegFault {
    ghost from_gives = { λ error fault. fault ≡ fault_of error };

    fn from(error: KeysError) -> RegFault {
        match error {
            KeysError::Fault => RegFault::KeysFault,
            KeysError::Memory => RegFault::Memory,
        }
    }
}

impl From<Memory> for RegFault {
    ghost from_gives = { λ _ fault. fault ≡ no_memory };

    fn from(_refused: Memory) -> RegFault {
        RegFault::Memory
    }
}

impl From<AllocError> for RegFault {
    ghost from_gives = { λ _ fault. fault ≡ no_memory };

    fn from(_refused: AllocError) -> RegFault {
        RegFault::Memory
    }
}
