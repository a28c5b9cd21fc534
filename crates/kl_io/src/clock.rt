//! What time it is.

ghost use Rattle.std.specs.Prelude.{List, ℕ};
ghost use Rattle.std.specs.declared.option.Option.{Option};
ghost use Rattle.kl_io.specs.Moments.{Gives};

/// Gives the moment, in milliseconds.
pub trait Clock {
    /// The moments that its calls will give from here on, where they are known. The last one stays.
    ghost told: { Self → Option (List ℕ) };

    /// The moment of this call.
    fn now(&mut self) -> u64
        ensures { Gives (told self.old) (told self.new) result };
}
