//! That a script prints one text.

ghost use Rattle.std.specs.Prelude.{◌≡◌, List, ℕ};
ghost use Rattle.kl_keys.specs.Relations.{Relations};
ghost use Rattle.kl_console.specs.Unique.{Prints};

/// Two runs over the same script end with the same status and write the same, where each ends with 0, 3, 6 or 8 and dropped
/// no poll for want of memory, its source tells its bytes, its output tells what it holds, its key object tells the same
/// relations, its words tell the same bytes, and neither of those met a fault. The script is all that the source had left when the
/// run began; how far each run read ahead does not count, nor how the source cut its bytes, and neither do memory and the
/// faults that an object met before.
///
/// It rests on what `run` says of these statuses alone: that a run ends with one of them is not said.
///
/// The function does nothing: its contract is the theorem.
pub fn one_output()
    ensures one { (script : List ℕ) (relations : Relations) (words : List ℕ) (status status' : ℕ) (written written' : List ℕ)
        → Prints script relations words status written → Prints script relations words status' written'
        → (status ≡ status') × (written ≡ written') }
{}
