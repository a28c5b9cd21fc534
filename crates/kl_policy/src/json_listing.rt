//! The digests that a JSON policy lists, read over its text.

ghost use Rattle.std.specs.Prelude.{◌≡◌, ◌≤◌, ℕ, List, Some, IfOk, IfSome, length};
ghost use Rattle.std.specs.FinSet as finite_set;
ghost use Rattle.std.specs.List.{AllZip};
ghost use Rattle.json.specs.Value.{value_view, members_view as tree_members};
ghost use Rattle.serde_json.specs.Data.{Data, Members, object, no_members};
ghost use Rattle.serde_json.specs.Read.{of_json, of_members};
ghost use Rattle.kl_policy.specs.Inner.Filling.{SpellsTree, SpellsAt, Fills};

use crate::limits::MOST_PATHS;
use kl_base::Memory;
use kl_digests::{DigestMap, KnownDigests, spelled_digest};
use kl_entry::FileDigest;
use kl_json::Tree;
use std::alloc::Global;

/// The digests of each path, or `None` where the tree is no object of lists of digests, or has more members than a policy has paths.
pub fn listing_of(alloc: Global, tree: &Tree<'_>) -> Result<Option<DigestMap>, Memory>
    ensures { IfOk result (λ o. IfSome o (λ digests. (ms : Members) × (of_json (value_view tree.now) ≡ Some (object ms)) × Fills 262144 ms digests)) }
{
    match tree {
        Tree::Object(paths) => short_listing(alloc, paths),
        _ => Ok(None),
    }
}

/// The digests of each path, where there are not too many members.
fn short_listing(alloc: Global, paths: &Vec<(&str, Tree<'_>)>) -> Result<Option<DigestMap>, Memory>
    ensures { IfOk result (λ o. IfSome o (λ digests. (ms : Members) × (of_members (tree_members paths.now.items) no_members ≡ Some ms) × Fills 262144 ms digests)) }
{
    if paths.len() > MOST_PATHS {
        return Ok(None);
    }
    filled(alloc, paths)
}

/// The digests of each path, put in one after the other: a later member of the same name takes an earlier one's place.
fn filled(alloc: Global, paths: &Vec<(&str, Tree<'_>)>) -> Result<Option<DigestMap>, Memory>
    requires { length paths.now.items ≤ 262144 }
    ensures { IfOk result (λ o. IfSome o (λ digests. (ms : Members) × (of_members (tree_members paths.now.items) no_members ≡ Some ms) × Fills 262144 ms digests)) }
{
    let mut digests = DigestMap::with_room(alloc, paths.len())?;
    for path in paths {
        let Some(known) = known_digests(alloc, &path.1)? else {
            return Ok(None);
        };
        let name = String::from_str(alloc, path.0)?;
        digests.put(name, known)?;
    }
    Ok(Some(digests))
}

/// The digests of one path, or `None` where the tree is no list of digests.
fn known_digests(alloc: Global, tree: &Tree<'_>) -> Result<Option<KnownDigests>, Memory>
    ensures { IfOk result (λ o. IfSome o (λ known. (d : Data) × (of_json (value_view tree.now) ≡ Some d)
        × ((digests : List (List ℕ)) × SpellsAt d digests × (known ≡ finite_set.from_list digests)))) }
{
    match tree {
        Tree::Array(items) => spelled(alloc, items),
        _ => Ok(None),
    }
}

/// The digests that these trees spell, or `None` where one spells none.
fn spelled(alloc: Global, items: &Vec<Tree<'_>>) -> Result<Option<KnownDigests>, Memory>
    ensures { IfOk result (λ o. IfSome o (λ known. (digests : List (List ℕ)) × AllZip SpellsTree items.now.items digests × (known ≡ finite_set.from_list digests))) }
{
    let mut known = KnownDigests::none();
    for item in items {
        let Some(digest) = spelled_by(item) else {
            return Ok(None);
        };
        known.push(alloc, &digest)?;
    }
    known.sort();
    Ok(Some(known))
}

/// The digest that a tree spells.
fn spelled_by(tree: &Tree<'_>) -> Option<FileDigest>
    ensures { IfSome result (SpellsTree tree.now) }
{
    match tree {
        Tree::String(text) => spelled_digest(text.as_bytes()),
        _ => None,
    }
}
