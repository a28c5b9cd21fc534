//! Where the lines of a list begin.

ghost use Rattle.std.specs.Prelude.{◌≡◌, All};
ghost use Rattle.kl_entry.specs.Lines.{lines_of, HasNo, RejoinsTo};

use crate::line_iterator::Lines;

/// The lines of a text, which end by a newline alone. A last line without a newline is a line, and
/// an empty text has none.
pub fn lines(text: &str) -> Lines<'_>
    ensures starts { result ≡ text.now }
    // What the lines are, in other words: no line has a newline, and joined they are the text.
    ensures cut { All (HasNo 10) (lines_of text.now) }
    ensures whole { RejoinsTo (lines_of text.now) text.now }
{
    Lines::over(text)
}
