//! Many digests in little memory.

ghost use Rattle.std.specs.Prelude.{◌≡◌, ◌∷◌, ◌++◌, List, ℕ, length, OnOk, OnErr};
ghost use Rattle.std.specs.FinSet as finite_set;
ghost use Rattle.std.specs.Cmp.Lexicographic.{slice_cmp};
ghost use Rattle.std.specs.List.Sorted.{IsPermutation};
ghost use Rattle.std.specs.Ordering.{nat_cmp};
ghost use Rattle.kl_digests.specs.Inner.Packed.{AreSorted, digest_at, is_listed};

use kl_base::Memory;
use kl_entry::FileDigest;
use std::alloc::Global;
use std::cmp::Ordering;
use std::marker::Model;

/// Digests of any lengths, one behind the other. Each takes its own bytes, one for its length and a place;
/// they are looked up by halving once they are sorted. Contracts see the set of the digests.
#[derive(Drop)]
pub struct PackedDigests {
    bytes: Vec<u8>,
    starts: Vec<usize>,
    sorted: bool,
}

impl Model for PackedDigests {
    ghost use Rattle.kl_digests.specs.Digests.{DigestSet, digest_set_code};

    ghost Value = { DigestSet };

    ghost coded = { digest_set_code };

    ghost use Rattle.std.specs.FinSet.{from_list};
    ghost use Rattle.kl_digests.specs.Inner.Packed.{IsPacked, digests_in};

    ghost view = { λ p. from_list (digests_in p.bytes.items p.starts.items) };

    ghost invariant = { IsPacked };
}

impl PackedDigests {
    /// No digests.
    pub fn new(alloc: Global) -> PackedDigests
        ensures { result ≡ finite_set.empty }
    {
        PackedDigests {
            bytes: Vec::new(alloc),
            starts: Vec::new(alloc),
            sorted: false,
        }
    }

    /// Adds a digest.
    pub fn push(&mut self, digest: &FileDigest) -> Result<(), Memory>
        ensures added { OnOk result (self.new ≡ finite_set.insert self.old digest.now) }
        ensures same { OnErr result (self.new ≡ self.old) }
    {
        let start = self.bytes.len();
        self.sorted = false;
        put(&mut self.bytes, digest)?;
        self.starts.push(start)?;
        Ok(())
    }

    /// Sorts the digests, so that they are found by halving.
    pub fn sort(&mut self)
        ensures { self.new ≡ self.old }
    {
        sort_by_digest(&self.bytes, &mut self.starts);
        self.sorted = true;
    }

    /// Whether this digest is one of them.
    pub fn contains(&self, digest: &[u8]) -> bool
        ensures { result ≡ finite_set.contains self.now digest.now }
    {
        if self.sorted {
            is_found(&self.bytes, &self.starts, digest)
        } else {
            is_among(&self.bytes, &self.starts, digest)
        }
    }
}

/// Writes a digest's length and its bytes behind the others.
fn put(bytes: &mut Vec<u8>, digest: &FileDigest) -> Result<(), Memory>
    ensures ok { OnOk result (bytes.new.items ≡ bytes.old.items ++ length digest.now ∷ digest.now) }
    ensures longer { (more : List ℕ) × (bytes.new.items ≡ bytes.old.items ++ more) }
{
    let digest = digest.as_slice();
    bytes.push(digest.len() as u8)?;
    bytes.extend_from_slice(digest)?;
    Ok(())
}

/// The digest that begins at this place.
fn digest_at(bytes: &[u8], start: usize) -> &[u8]
    ensures { result.now ≡ digest_at bytes.now start }
{
    match bytes.get(start..) {
        Some([len, rest @ ..]) => &rest[..rest.len().min(*len as usize)],
        _ => &[],
    }
}

/// How the digest that begins at this place compares with another.
fn compared(bytes: &[u8], start: usize, digest: &[u8]) -> Ordering
    ensures { result ≡ slice_cmp nat_cmp (digest_at bytes.now start) digest.now }
{
    digest_at(bytes, start).cmp(digest)
}

/// Sorts the places by the digests that begin there.
fn sort_by_digest(bytes: &[u8], starts: &mut Vec<usize>)
    ensures same { IsPermutation starts.old.items starts.new.items }
    ensures sorted { AreSorted bytes.now starts.new.items }
{
    starts.sort_unstable_by(|a, b| compared(bytes, *a, digest_at(bytes, *b)));
}

/// Whether a digest that begins at one of these places is this one, where they are sorted.
fn is_found(bytes: &[u8], starts: &[usize], digest: &[u8]) -> bool
    requires { AreSorted bytes.now starts.now }
    ensures { result ≡ is_listed bytes.now starts.now digest.now }
{
    starts
        .binary_search_by(|start| compared(bytes, *start, digest))
        .is_ok()
}

/// Whether a digest that begins at one of these places is this one.
fn is_among(bytes: &[u8], starts: &[usize], digest: &[u8]) -> bool
    ensures { result ≡ is_listed bytes.now starts.now digest.now }
{
    starts
        .iter()
        .any(|start| digest == digest_at(bytes, *start))
}
