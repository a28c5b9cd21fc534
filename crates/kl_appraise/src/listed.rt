//! The entries of a measurement list.

ghost use Rattle.std.specs.Prelude.{IfOk, IfErr};
ghost use Rattle.kl_entry.specs.Lines.{AreEntries};
ghost use Rattle.kl_appraise.specs.Inner.Listed.{HasSmallPlace, IsListFault};

use kl_entry::{Entry, LineFault, lines, read_entry};
use std::alloc::{AllocError, AllocFailed, Global};

/// Why a list gave no entries.
#[derive(Clone, Copy)]
pub enum ListFault {
    /// The line at this place, from 0, is the first that is no entry.
    Line(usize, LineFault),
    /// Memory ran out.
    Memory,
}

impl From<AllocError> for ListFault {
    ghost use Rattle.std.specs.Prelude.{◌≡◌};
    ghost use Rattle.kl_appraise.specs.declared.listed.ListFault.TheVariants.{Memory};

    ghost from_gives = { λ _ fault. fault ≡ Memory };

    fn from(_error: AllocError) -> ListFault {
        ListFault::Memory
    }
}

impl<T: Drop> From<AllocFailed<T>> for ListFault {
    ghost use Rattle.std.specs.Prelude.{◌≡◌};
    ghost use Rattle.kl_appraise.specs.declared.listed.ListFault.TheVariants.{Memory};

    ghost from_gives = { λ _ fault. fault ≡ Memory };

    fn from(_failed: AllocFailed<T>) -> ListFault {
        ListFault::Memory
    }
}

/// Reads all lines of a measurement list.
pub fn read_entries(alloc: Global, list: &str) -> Result<Vec<Entry<'_>>, ListFault>
    ensures entries { IfOk result (λ entries. AreEntries list.now entries.items) }
    ensures small { IfErr result HasSmallPlace }
    ensures fault { IfErr result (λ fault. IsListFault list.now fault) }
{
    // Room for all of them is taken at once, for most lists: a line of one is mostly longer than this.
    let mut entries = Vec::with_capacity(alloc, list.len() / 96 + 1)?;
    for line in lines(list) {
        match read_entry(line) {
            Ok(entry) => entries.push(entry)?,
            Err(fault) => return Err(ListFault::Line(entries.len(), fault)),
        }
    }
    Ok(entries)
}
