//! That a script of commands is executed to its end.

ghost use Rattle.std.specs.Prelude.{◌≡◌, ◌≢◌, ◌⊎◌, ℕ};
ghost use Rattle.kl_core.specs.Books.{BookFields};
ghost use Rattle.kl_console.specs.Run.{Moment, EndsAs, IsStatus};
ghost use Rattle.kl_console.specs.Complete.{IsComplete, WantsWords};

/// A run whose words are right ends with 0, or with 70, want of memory, or with 6, where a line of its script spells a `begin`
/// without a nonce, and fewer than 16 bytes of the words are left, or a `register`, and fewer than 32 are, as far as they tell:
/// if each line of its script spells a command, each line and the script are within their limits, and no read, put or draw met
/// a fault. At 0 the script was executed whole.
///
/// The function does nothing: its contract is the theorem.
pub fn complete_runs()
    ensures complete { (before after : Moment) (status : ℕ) (B : BookFields) → EndsAs before after status B → IsStatus status → status ≢ 2
        → (is : IsComplete before after)
        → (status ≡ 0) ⊎ ((status ≡ 70) ⊎ ((status ≡ 6) × WantsWords is.script after.outside.words.left)) }
{}
