//! A JSON policy read over its text.

ghost use Rattle.std.specs.Prelude.{◌≡◌, ◌≢◌, true, Some, IfOk, IfSome, map, string_bytes, codes};
ghost use Rattle.json.specs.Value.{value_view, members_view as tree_members};
ghost use Rattle.serde_json.specs.Data.{Data, Members, object, no_members, put};
ghost use Rattle.serde_json.specs.Read.{of_json, of_members};
ghost use Rattle.kl_json.specs.Reading.{Reads};
ghost use Rattle.kl_policy.specs.Json.{HasParts};
ghost use Rattle.kl_policy.specs.Inner.Filling.{IsSplit};

use crate::fault::PolicyFault;
use crate::json_listing::listing_of;
use crate::json_members::{Rest, rest_of};
use kl_base::Memory;
use kl_digests::DigestMap;
use kl_json::{Map, Scratch, Tree, Value, owned, tree_of};
use std::alloc::Global;

/// What a JSON policy says.
#[derive(Drop)]
pub struct Said {
    pub digests: DigestMap,
    pub rest: Rest,
}

/// What a policy's text says, read with no copy of the texts of its digests. `None` where the text is no policy, whose fault
/// another reading tells, or lists a path again and again.
pub fn said_over(alloc: Global, text: &str) -> Result<Option<Said>, Memory>
    ensures { IfOk result (λ o. IfSome o (λ said. (d : Data) × Reads text.now d
        × HasParts d said.digests (map string_bytes said.rest.patterns.items) said.rest.passes_violations)) }
{
    let mut scratch = Scratch::new(alloc);
    match tree_of(alloc, text, &mut scratch)? {
        Some(tree) => said_by(alloc, &tree),
        None => Ok(None),
    }
}

/// What a policy's tree says.
fn said_by(alloc: Global, tree: &Tree<'_>) -> Result<Option<Said>, Memory>
    ensures { IfOk result (λ o. IfSome o (λ said. (d : Data) × (of_json (value_view tree.now) ≡ Some d)
        × HasParts d said.digests (map string_bytes said.rest.patterns.items) said.rest.passes_violations)) }
{
    let Tree::Object(members) = tree else {
        return Ok(None);
    };
    match split_members(alloc, members)? {
        Some(split) => said_of_split(alloc, split),
        None => Ok(None),
    }
}

/// A policy's members: the digests that it lists, and the other members.
#[derive(Drop)]
struct Split {
    digests: Option<DigestMap>,
    others: Map<String, Value>,
}

/// The members of a policy, read one after the other: a later one takes the place of an earlier one of the same name.
fn split_members(alloc: Global, members: &Vec<(&str, Tree<'_>)>) -> Result<Option<Split>, Memory>
    ensures { IfOk result (λ o. IfSome o (λ split. (found : Members) × (of_members (tree_members members.now.items) no_members ≡ Some found)
        × IsSplit found split.digests split.others.entries)) }
{
    let mut split = Split {
        digests: None,
        others: Map::new(alloc),
    };
    for member in members {
        if !take(alloc, &mut split, member.0, &member.1)? {
            return Ok(None);
        }
    }
    Ok(Some(split))
}

/// Takes one member more. Answers whether it could be read.
fn take(alloc: Global, split: &mut Split, name: &str, tree: &Tree<'_>) -> Result<bool, Memory>
    ensures { IfOk result (λ taken. taken ≡ true → (found : Members) → IsSplit found split.old.digests split.old.others.entries
        → (d : Data) × (of_json (value_view tree.now) ≡ Some d) × IsSplit (put name.now d found) split.new.digests split.new.others.entries) }
{
    if name == "digests" {
        take_listing(alloc, split, tree)
    } else {
        take_other(alloc, split, name, tree)
    }
}

/// Takes the digests.
fn take_listing(alloc: Global, split: &mut Split, tree: &Tree<'_>) -> Result<bool, Memory>
    ensures { IfOk result (λ taken. taken ≡ true → (found : Members) → IsSplit found split.old.digests split.old.others.entries
        → (d : Data) × (of_json (value_view tree.now) ≡ Some d) × IsSplit (put (codes "digests") d found) split.new.digests split.new.others.entries) }
{
    match listing_of(alloc, tree)? {
        Some(digests) => {
            split.digests = Some(digests);
            Ok(true)
        }
        None => Ok(false),
    }
}

/// Takes a member besides the digests.
fn take_other(alloc: Global, split: &mut Split, name: &str, tree: &Tree<'_>) -> Result<bool, Memory>
    requires { name.now ≢ codes "digests" }
    ensures { IfOk result (λ taken. taken ≡ true → (found : Members) → IsSplit found split.old.digests split.old.others.entries
        → (d : Data) × (of_json (value_view tree.now) ≡ Some d) × IsSplit (put name.now d found) split.new.digests split.new.others.entries) }
{
    let Some(value) = owned(alloc, tree)? else {
        return Ok(false);
    };
    let key = String::from_str(alloc, name)?;
    drop(split.others.insert(key, value)?);
    Ok(true)
}

/// What a policy of these members says.
fn said_of_split(alloc: Global, split: Split) -> Result<Option<Said>, Memory>
    ensures { IfOk result (λ o. IfSome o (λ said. (found : Members) → IsSplit found split.digests split.others.entries
        → HasParts (object found) said.digests (map string_bytes said.rest.patterns.items) said.rest.passes_violations)) }
{
    let Split { digests, others } = split;
    let Some(digests) = digests else {
        return Ok(None);
    };
    let others = Value::Object(others);
    match rest_of(alloc, &others) {
        Ok(rest) => Ok(Some(Said { digests, rest })),
        Err(PolicyFault::Memory) => Err(Memory),
        Err(_) => Ok(None),
    }
}
