//! What an entry means.

ghost use Rattle.std.specs.Prelude.{◌≡◌};
ghost use Rattle.kl_entry.specs.Entries.{data_of, is_violation, is_consistent};

use crate::entry::Entry;
use crate::entry_data::EntryData;
use sha1::Sha1;

/// Whether the entry is a violation: its template hash is 20 bytes 0.
pub fn violation(entry: &Entry<'_>) -> bool
    ensures { result ≡ is_violation entry.now }
{
    *entry.hash() == [0; 20]
}

/// Whether the entry is a violation, or its template hash is the SHA-1 of its template data.
pub fn consistent(entry: &Entry<'_>) -> bool
    ensures { result ≡ is_consistent entry.now }
{
    consistent_with(entry, &EntryData::of(entry))
}

/// What [`consistent`] answers, by the entry's template data, which is laid out already.
pub fn consistent_with(entry: &Entry<'_>, laid_out: &EntryData) -> bool
    requires { laid_out.now ≡ data_of entry.now }
    ensures { result ≡ is_consistent entry.now }
{
    violation(entry) || *entry.hash() == Sha1::digest(laid_out.as_slice())
}
