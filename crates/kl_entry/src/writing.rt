//! The line of an entry.

ghost use Rattle.std.specs.Prelude.{◌≡◌, IfOk, string_bytes};
ghost use Rattle.kl_entry.specs.Lines.{IsEntry, Spells, line_of};

use crate::entry::Entry;
use kl_base::Memory;
use std::alloc::Global;

/// The one line, without a newline, that spells the entry.
pub fn write_entry(alloc: Global, entry: &Entry<'_>) -> Result<String, Memory>
    requires { IsEntry entry.now }
    ensures line { IfOk result (λ line. string_bytes line ≡ line_of entry.now) }
    ensures spells { IfOk result (λ line. Spells (string_bytes line) entry.now) }
{
    let hash = hex::encode(alloc, entry.hash().as_slice())?;
    let digest = hex::encode(alloc, entry.digest().as_slice())?;
    let mut line = String::from_str(alloc, "10 ")?;
    line.push_str(hash.as_str())?;
    line.push_str(" ima-ng ")?;
    line.push_str(entry.alg())?;
    line.push_str(":")?;
    line.push_str(digest.as_str())?;
    line.push_str(" ")?;
    line.push_str(entry.path())?;
    Ok(line)
}
