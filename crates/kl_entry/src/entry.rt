//! An entry of a measurement list.

ghost use Rattle.std.specs.Prelude.{◌≡◌, ◌≤◌, length};
ghost use Rattle.kl_entry.specs.Entries.{IsBounded};

use crate::file_digest::FileDigest;
use std::marker::Model;

/// An entry of a measurement list in the template `ima-ng`, whose texts are borrowed from the list.
///
/// The name of the algorithm and the path have at most 8,192 bytes each.
#[derive(Debug, Drop)]
pub struct Entry<'a> {
    hash: [u8; 20],
    alg: &'a str,
    digest: FileDigest,
    path: &'a str,
}

impl<'a> Model for Entry<'a> {
    ghost use Rattle.kl_entry.specs.Entries.{EntryFields, IsBounded};

    ghost Value = { EntryFields };

    ghost use Rattle.kl_entry.specs.Inner.Borrowed.{fields_of};

    ghost view = { fields_of };

    ghost invariant = { λ e. IsBounded (fields_of e) };
}

impl<'a> Entry<'a> {
    /// The entry with these fields.
    pub fn new(hash: [u8; 20], alg: &'a str, digest: FileDigest, path: &'a str) -> Entry<'a>
        requires alg { length alg.now ≤ 8192 }
        requires path { length path.now ≤ 8192 }
        ensures { result
            ≡ record { hash = hash; alg = alg.entry.now; digest = digest; path = path.entry.now } }
    {
        let _bytes = digest.as_slice();
        Entry {
            hash,
            alg,
            digest,
            path,
        }
    }

    /// The template hash: the SHA-1 of the template data, or zeros for a violation.
    pub fn hash(&self) -> &[u8; 20]
        ensures value { result.now ≡ self.now.hash }
        ensures bounds { IsBounded self.now }
    {
        &self.hash
    }

    /// The name of the algorithm of the file's digest.
    pub fn alg(&self) -> &'a str
        ensures value { result.now ≡ self.now.alg }
        ensures bounds { IsBounded self.now }
    {
        self.alg
    }

    /// The file's digest.
    pub fn digest(&self) -> &FileDigest
        ensures value { result.now ≡ self.now.digest }
        ensures bounds { IsBounded self.now }
    {
        &self.digest
    }

    /// The file's path.
    pub fn path(&self) -> &'a str
        ensures value { result.now ≡ self.now.path }
        ensures bounds { IsBounded self.now }
    {
        self.path
    }
}
