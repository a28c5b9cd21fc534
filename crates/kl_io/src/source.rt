//! Where bytes come from.

ghost use Rattle.std.specs.Prelude.{◌≡◌, IsErr};
ghost use Rattle.std.specs.Io.{ReadsAtMost};
ghost use Rattle.std.specs.Io.KnownBytes.{ReadConsumes};
ghost use Rattle.kl_io.specs.Calls.{Counts};
ghost use Rattle.kl_io.specs.Told.{SourceTold};

use crate::Failed;

/// Gives bytes in order, and counts its calls and its faults.
pub trait Source {
    /// What it tells: the bytes left, and what it counted.
    ghost told: { Self → SourceTold };

    /// How many calls have met a fault, up to `u64::MAX`.
    fn faults(&self) -> u64
        ensures { result ≡ (told self.now).calls.faults };

    /// Takes the next bytes into the front of the buffer, and says how many. None into a buffer that has
    /// room is the end of the input.
    ///
    /// # Errors
    /// [`Failed`] where the source met a fault in this call. Then it took nothing.
    fn read(&mut self, buf: &mut [u8]) -> Result<usize, Failed>
        ensures bound { ReadsAtMost result buf.new }
        ensures bytes { ReadConsumes (told self.old).left (told self.new).left result buf.new }
        ensures kept { (told self.new).kept ≡ (told self.old).kept }
        ensures same { (told self.new).place ≡ (told self.old).place }
        ensures counted { Counts (told self.old).calls (told self.new).calls (IsErr result) };
}
