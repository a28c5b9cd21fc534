//! What makes a pattern of a text.

ghost use Rattle.std.specs.Prelude.{◌≡◌, ◌≤◌, ◌∷◌, [], length, IfOk, IsErrOf};
ghost use Rattle.kl_io.specs.Calls.{Counts};
ghost use Rattle.kl_exclude.specs.Excludes.{IsPattern};
ghost use Rattle.kl_exclude.specs.Making.{IsRegexOf};
ghost use Rattle.kl_exclude.specs.Told.{MakerTold, Logs};

use crate::fault::PatternFault;
use regex::Regex;
use std::alloc::Global;

/// Makes patterns of texts. Which texts it refuses as too large is its own, so it counts those and tells the last one.
pub trait PatternMaker {
    /// What it tells: what it counted, the text that it last refused as too large, and all that it was asked.
    ghost told: { Self → MakerTold };

    /// How many texts were refused as too large, up to `u64::MAX`.
    fn sizes(&self) -> u64
        ensures { result ≡ (told self.now).calls.faults };

    /// The pattern that a text of at most 512 bytes is, as `regex` reads it with its default options.
    ///
    /// # Errors
    /// [`PatternFault::Syntax`] where it is none or is nested deeper than 250, [`PatternFault::TooLarge`] where it is refused
    /// in this call as too large, and [`PatternFault::Memory`] where there is no memory for it.
    fn make(&mut self, alloc: Global, text: &str) -> Result<Regex, PatternFault>
        requires fits { length text.now ≤ 512 }
        ensures made { IfOk result (IsRegexOf text.now) }
        ensures syntax { IsErrOf result PatternFault.Syntax → ¬ (IsPattern text.now) }
        ensures counted { Counts (told self.old).calls (told self.new).calls (IsErrOf result PatternFault.TooLarge) }
        ensures refused { IsErrOf result PatternFault.TooLarge → (told self.new).refused ≡ text.now }
        ensures kept { ¬ (IsErrOf result PatternFault.TooLarge) → (told self.new).refused ≡ (told self.old).refused }
        ensures logged { Logs (told self.old) (told self.new) (text.now ∷ []) };
}
