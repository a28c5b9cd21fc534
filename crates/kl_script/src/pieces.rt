//! Pieces of a text between separators.

ghost use Rattle.std.specs.Prelude.{◌≡◌, ◌<◌, List, ℕ, IfOk, Err};
ghost use Rattle.std.specs.List.{AllZip};
ghost use Rattle.kl_script.specs.Statics.{pieces_at};

use crate::fault::CommandFault;
use std::alloc::Global;

/// A value that is spelled by a piece of a text.
pub(crate) trait Spelled: Drop + Sized {
    /// The text spells the value.
    ghost spells: { List ℕ → Self → Type 0 };

    /// The value that a text spells. The error is `NoCommand` where it spells none.
    fn read(alloc: Global, written: &str) -> Result<Self, CommandFault>
        ensures found { IfOk result (λ value. spells written.now value) }
        ensures none { result ≡ Err CommandFault.NoCommand → (value : Self) → ¬ (spells written.now value) };
}

/// The values that the pieces between the separators spell, in order.
pub(crate) fn read_pieces<T: Spelled>(
    alloc: Global,
    written: &str,
    separator: char,
) -> Result<Vec<T>, CommandFault>
    requires { separator < 128 }
    ensures found { IfOk result (λ values. AllZip T.spells (pieces_at separator written.now) values.items) }
    ensures none { result ≡ Err CommandFault.NoCommand
        → (values : List T) → ¬ (AllZip T.spells (pieces_at separator written.now) values) }
{
    let mut values = Vec::new(alloc);
    for piece in written.split(separator) {
        values.push(T::read(alloc, piece)?)?;
    }
    Ok(values)
}
