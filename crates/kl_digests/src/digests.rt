//! The digests of each path, in a hash table.

ghost use Rattle.std.specs.Prelude.{◌≡◌, ℕ, List, IfOk, OnOk, OnErr, Some, if◌then◌else◌, unwrap_or, string_bytes};
ghost use Rattle.std.specs.HashMap.{get_by_text};
ghost use Rattle.std.specs.FinMap as finite_map;
ghost use Rattle.std.specs.FinSet as finite_set;
ghost use Rattle.std.specs.Option.{option_copied};
ghost use Rattle.std.specs.Str.{bytes_eq};

use crate::packed::PackedDigests;
use kl_base::Memory;
use kl_entry::FileDigest;
use std::alloc::Global;
use std::collections::HashMap;
use std::collections::hash_map::Entry;
use std::marker::Model;

/// The digests of one path. There is mostly one, which needs no memory of its own. Contracts see the set of them.
#[derive(Drop)]
pub struct KnownDigests {
    held: Held,
}

/// How the digests of one path lie in memory.
#[derive(Drop)]
enum Held {
    Nothing,
    One(FileDigest),
    Many(Box<PackedDigests>),
}

impl Model for KnownDigests {
    ghost use Rattle.kl_digests.specs.Digests.{DigestSet, digest_set_code};
    ghost use Rattle.kl_digests.specs.Inner.Table.{held_set};

    ghost Value = { DigestSet };

    ghost coded = { digest_set_code };

    ghost view = { λ k. held_set k.held };
}

impl KnownDigests {
    /// No digest.
    pub fn none() -> KnownDigests
        ensures { result ≡ finite_set.empty }
    {
        KnownDigests {
            held: Held::Nothing,
        }
    }

    /// One digest.
    fn of(digest: FileDigest) -> KnownDigests
        ensures { result ≡ finite_set.insert finite_set.empty digest }
    {
        KnownDigests {
            held: Held::One(digest),
        }
    }

    /// Adds a digest.
    ///
    /// # Errors
    ///
    /// [`Memory`].
    pub fn push(&mut self, alloc: Global, digest: &FileDigest) -> Result<(), Memory>
        ensures added { OnOk result (self.new ≡ finite_set.insert self.old digest.now) }
        ensures same { OnErr result (self.new ≡ self.old) }
    {
        match &mut self.held {
            Held::Nothing => {
                self.held = Held::One(*digest);
                Ok(())
            }
            Held::One(first) => {
                let both = pair(alloc, first, digest)?;
                self.held = Held::Many(both);
                Ok(())
            }
            Held::Many(more) => more.push(digest),
        }
    }

    /// Sorts the digests, so that a look-up takes no more steps than the logarithm of how many there are.
    pub fn sort(&mut self)
        ensures { self.new ≡ self.old }
    {
        if let Held::Many(more) = &mut self.held {
            more.sort();
        }
    }

    /// Whether the path may have this digest.
    pub fn contains(&self, digest: &[u8]) -> bool
        ensures { result ≡ finite_set.contains self.now digest.now }
    {
        match &self.held {
            Held::Nothing => false,
            Held::One(first) => digest == first.as_slice(),
            Held::Many(more) => more.contains(digest),
        }
    }
}

/// Two digests of one path.
fn pair(
    alloc: Global,
    first: &FileDigest,
    second: &FileDigest,
) -> Result<Box<PackedDigests>, Memory>
    ensures { IfOk result (λ both. both.value ≡ finite_set.insert (finite_set.insert finite_set.empty first.now) second.now) }
{
    let mut both = PackedDigests::new(alloc);
    both.push(first)?;
    both.push(second)?;
    Ok(Box::new(alloc, both)?)
}

/// From paths to their digests.
#[derive(Drop)]
pub struct DigestMap {
    map: HashMap<String, KnownDigests>,
}

impl Model for DigestMap {
    ghost use Rattle.kl_digests.specs.Digests.{DigestMap, digest_map_code};

    ghost Value = { DigestMap };

    ghost coded = { digest_map_code };

    ghost use Rattle.kl_digests.specs.Inner.Table.{table_map};

    ghost view = { λ m. table_map m.map };
}

impl DigestMap {
    /// No paths.
    pub fn new(alloc: Global) -> DigestMap
        ensures { result ≡ finite_map.empty }
    {
        DigestMap {
            map: HashMap::new(alloc),
        }
    }

    /// No paths, with room for so many.
    ///
    /// # Errors
    ///
    /// [`Memory`].
    pub fn with_room(alloc: Global, paths: usize) -> Result<DigestMap, Memory>
        ensures { IfOk result (λ digests. digests ≡ finite_map.empty) }
    {
        Ok(DigestMap {
            map: HashMap::with_capacity(alloc, paths)?,
        })
    }

    /// Adds a path with these digests, in place of those that it had.
    ///
    /// # Errors
    ///
    /// [`Memory`].
    pub fn put(&mut self, path: String, known: KnownDigests) -> Result<(), Memory>
        ensures added { OnOk result (self.new ≡ finite_map.insert self.old (string_bytes path) known) }
        ensures same { OnErr result (self.new ≡ self.old) }
    {
        match self.map.insert(path, known) {
            Ok(_) => Ok(()),
            Err(_) => Err(Memory),
        }
    }

    /// Adds a digest to those of a path.
    ///
    /// # Errors
    ///
    /// [`Memory`].
    pub fn add(&mut self, alloc: Global, path: &str, digest: &FileDigest) -> Result<(), Memory>
        ensures added { OnOk result (self.new ≡ finite_map.insert self.old path.now (finite_set.insert (unwrap_or (finite_map.get self.old path.now) finite_set.empty) digest.now)) }
        ensures same { OnErr result (self.new ≡ self.old) }
    {
        push_at(&mut self.map, alloc, String::from_str(alloc, path)?, digest)
    }

    /// Sorts the digests of each path, so that a look-up takes no more steps than the logarithm of how many
    /// there are.
    pub fn sort(&mut self)
        ensures { self.new ≡ self.old }
    {
        self.map.retain(|_path, known| {
            known.sort();
            true
        });
    }

    /// The digests of a path.
    pub fn find(&self, path: &str) -> Option<&KnownDigests>
        ensures { option_copied result ≡ finite_map.get self.now path.now }
    {
        self.map.get(path)
    }

    /// How many paths there are.
    pub fn len(&self) -> usize
        ensures { result ≡ finite_map.len self.now }
    {
        self.map.len()
    }
}

/// Adds a digest to those at `path`, or begins with it there.
fn push_at(
    table: &mut HashMap<String, KnownDigests>,
    alloc: Global,
    path: String,
    digest: &FileDigest,
) -> Result<(), Memory>
    ensures added { OnOk result ((q : List ℕ) → get_by_text table.new q
        ≡ (if bytes_eq (string_bytes path) q then Some (finite_set.insert (unwrap_or (get_by_text table.old (string_bytes path)) finite_set.empty) digest.now) else get_by_text table.old q)) }
    ensures same { OnErr result ((q : List ℕ) → get_by_text table.new q ≡ get_by_text table.old q) }
{
    match table.entry(path)? {
        Entry::Occupied(mut found) => found.get_mut().push(alloc, digest)?,
        Entry::Vacant(place) => {
            place.insert_entry(KnownDigests::of(*digest));
        }
    }
    Ok(())
}
