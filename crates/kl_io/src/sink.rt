//! Where bytes go.

ghost use Rattle.std.specs.Prelude.{◌≡◌, IsErr, OnOk, OnErr};
ghost use Rattle.std.specs.Io.KnownBytes.{Appends};
ghost use Rattle.kl_io.specs.Calls.{Counts};
ghost use Rattle.kl_io.specs.Told.{SinkTold, AppendsFront};

use crate::Failed;

/// Takes bytes in order, and counts its calls and its faults.
pub trait Sink {
    /// What it tells: the bytes held, and what it counted.
    ghost told: { Self → SinkTold };

    /// How many calls have met a fault, up to `u64::MAX`.
    fn faults(&self) -> u64
        ensures { result ≡ (told self.now).calls.faults };

    /// Appends the piece.
    ///
    /// # Errors
    /// [`Failed`] where the sink met a fault in this call. Then it appended a front of the piece, which may
    /// be none of it or all of it.
    fn put(&mut self, piece: &[u8]) -> Result<(), Failed>
        ensures whole { OnOk result (Appends (told self.old).held (told self.new).held piece.now) }
        ensures front { OnErr result (AppendsFront (told self.old).held (told self.new).held piece.now) }
        ensures ahead { (told self.new).ahead ≡ (told self.old).ahead }
        ensures same { (told self.new).place ≡ (told self.old).place }
        ensures counted { Counts (told self.old).calls (told self.new).calls (IsErr result) };
}
