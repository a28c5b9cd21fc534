//! Why keys give no answer.

ghost use Rattle.std.specs.Prelude.{◌≡◌, ⊤};
ghost use Rattle.kl_keys.specs.declared.fault.KeysError.TheVariants as errors;

use kl_io::Failed;
use std::alloc::AllocError;

/// The keys could not be asked; their count of faults rose.
#[derive(Clone, Copy, Debug, PartialEq, Eq, Drop)]
pub struct KeysFault;

/// Why there is no signature.
#[derive(Clone, Copy, Debug, PartialEq, Eq, Drop)]
pub enum KeysError {
    /// The keys could not be asked; their count of faults rose.
    Fault,
    /// Memory ran out.
    Memory,
}

impl From<Failed> for KeysFault {
    ghost from_gives = { λ _ _. ⊤ };

    fn from(_failed: Failed) -> KeysFault {
        KeysFault
    }
}

impl From<Failed> for KeysError {
    ghost from_gives = { λ _ e. e ≡ errors.Fault };

    fn from(_failed: Failed) -> KeysError {
        KeysError::Fault
    }
}

impl From<AllocError> for KeysError {
    ghost from_gives = { λ _ e. e ≡ errors.Memory };

    fn from(_refused: AllocError) -> KeysError {
        KeysError::Memory
    }
}
