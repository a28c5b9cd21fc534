//! Where random bytes come from.

ghost use Rattle.std.specs.Prelude.{◌≡◌, length, IsErrOf, OnOk, OnErr};
ghost use Rattle.std.specs.Io.KnownBytes.{Consumes};
ghost use Rattle.kl_io.specs.Calls.{Counts};
ghost use Rattle.kl_io.specs.Told.{WordsTold, Ends};
ghost use Rattle.kl_io.specs.declared.words.WordsError.TheVariants as errors;

use crate::Failed;

/// Why no bytes were drawn.
#[derive(Clone, Copy, Debug, PartialEq, Eq)]
pub enum WordsError {
    /// The words met a fault, which they counted.
    Failed,
    /// Fewer bytes are left than were asked for.
    Ended,
}

impl From<Failed> for WordsError {
    ghost from_gives = { λ _ e. e ≡ errors.Failed };

    fn from(_failed: Failed) -> WordsError {
        WordsError::Failed
    }
}

/// Gives bytes to draw, as nonces and keys, and counts its calls and its faults.
pub trait Words {
    /// What it tells: the bytes left, and what it counted.
    ghost told: { Self → WordsTold };

    /// How many calls have met a fault, up to `u64::MAX`.
    fn faults(&self) -> u64
        ensures { result ≡ (told self.now).calls.faults };

    /// Takes the next bytes, as many as fill the buffer.
    ///
    /// # Errors
    /// [`WordsError::Ended`] where fewer are left, and else [`WordsError::Failed`] where a fault was met in this call.
    /// Either takes nothing.
    fn fill(&mut self, buf: &mut [u8]) -> Result<(), WordsError>
        ensures room { length buf.new ≡ length buf.old }
        ensures filled { OnOk result (Consumes (told self.old).left (told self.new).left buf.new) }
        ensures nothing { OnErr result ((told self.new).left ≡ (told self.old).left) }
        ensures ended { Ends (told self.old).left (length buf.old) (IsErrOf result WordsError.Ended) }
        ensures counted { Counts (told self.old).calls (told self.new).calls (IsErrOf result WordsError.Failed) };
}
