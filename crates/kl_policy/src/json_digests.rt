//! The digests that a JSON policy lists.

ghost use Rattle.std.specs.Prelude.{◌≡◌, ℕ, List, Some, IfOk, IfErr, IfSome, IfNone, IsSome, codes, is_some, option_map};
ghost use Rattle.std.specs.FinSet as finite_set;
ghost use Rattle.std.specs.List.{AllZip};
ghost use Rattle.serde_json.specs.Data.{object};
ghost use Rattle.serde_json.specs.Find.{get, as_object, as_str};
ghost use Rattle.serde_json.specs.View.{view, members_view};
ghost use Rattle.kl_digests.specs.Digests.{SpellsDigest};
ghost use Rattle.kl_policy.specs.Json.{Listed, as_texts, listed_in, Decodes, HasDigests, IsGood, IsPartsFault};
ghost use Rattle.kl_policy.specs.Inner.JsonParts.{IsListingFault, IsTextsFault};

use crate::fault::{Limit, PolicyFault};
use crate::json_members::texts_of;
use crate::limits::MOST_PATHS;
use kl_digests::{DigestMap, KnownDigests, spelled_digest};
use kl_entry::FileDigest;
use kl_json::{JsonFault, Map, Value};
use std::alloc::Global;

/// The digests that a policy lists, by their paths. The paths are moved out of the value, and the rest of it is let go.
pub fn digests_of(alloc: Global, policy: Value) -> Result<DigestMap, PolicyFault>
    ensures digests { IfOk result (λ digests. HasDigests (view policy) digests) }
    ensures fault { IfErr result (λ fault. IsPartsFault (view policy) fault) }
{
    let paths = listing_of(policy)?;
    if !are_listed(&paths) {
        return Err(PolicyFault::Json(JsonFault::Kind("digests")));
    }
    if paths.len() > MOST_PATHS {
        return Err(PolicyFault::Limit(Limit::Paths));
    }
    decode(alloc, paths)
}

/// The member `digests`, taken out of the policy.
fn listing_of(policy: Value) -> Result<Map<String, Value>, PolicyFault>
    ensures object { IfOk result (λ paths. IsSome (as_object (view policy))) }
    ensures taken { IfOk result (λ paths. get (codes "digests") (view policy) ≡ Some (object (members_view paths.entries))) }
    ensures fault { IfErr result (λ fault. IsPartsFault (view policy) fault) }
{
    let Some(members) = into_map(policy) else {
        return Err(PolicyFault::Json(JsonFault::Kind("policy")));
    };
    let Some(listing) = take_digests(members) else {
        return Err(PolicyFault::Json(JsonFault::Missing("digests")));
    };
    match into_map(listing) {
        Some(paths) => Ok(paths),
        None => Err(PolicyFault::Json(JsonFault::Kind("digests"))),
    }
}

/// The members of an object.
fn into_map(value: Value) -> Option<Map<String, Value>>
    ensures object { IfSome result (λ members. view value ≡ object (members_view members.entries)) }
    ensures other { IfNone result (as_object (view value) ≡ None) }
{
    match value {
        Value::Object(members) => Some(members),
        _ => None,
    }
}

/// The member `digests`.
fn take_digests(mut members: Map<String, Value>) -> Option<Value>
    ensures { option_map view result ≡ get (codes "digests") (object (members_view members.entries)) }
{
    members.remove("digests")
}

/// Whether each member is a list of texts.
fn are_listed(paths: &Map<String, Value>) -> bool
    ensures { result ≡ is_some (listed_in (members_view paths.now.entries)) }
{
    for entry in paths.iter() {
        if texts_of(entry.1).is_none() {
            return false;
        }
    }
    true
}

/// The digests of each path, put in one after the other.
fn decode(alloc: Global, paths: Map<String, Value>) -> Result<DigestMap, PolicyFault>
    requires { IsSome (listed_in (members_view paths.entries)) }
    ensures decoded { IfOk result (λ digests. (listed : List Listed) → listed_in (members_view paths.entries) ≡ Some listed → Decodes listed digests) }
    ensures fault { IfErr result (λ fault. (listed : List Listed) → listed_in (members_view paths.entries) ≡ Some listed → IsListingFault listed fault) }
{
    let mut digests = DigestMap::with_room(alloc, paths.len())?;
    let mut place = 0;
    for (path, texts) in paths {
        let known = decode_member(alloc, place, texts)?;
        digests.put(path, known)?;
        place += 1;
    }
    Ok(digests)
}

/// The digests of the path at this place, whose texts are let go.
fn decode_member(alloc: Global, place: usize, texts: Value) -> Result<KnownDigests, PolicyFault>
    requires { IsSome (as_texts (view texts)) }
    ensures decoded { IfOk result (λ known. (listed : List (List ℕ)) → as_texts (view texts) ≡ Some listed
        → (digests : List (List ℕ)) × AllZip SpellsDigest listed digests × (known ≡ finite_set.from_list digests)) }
    ensures fault { IfErr result (λ fault. (listed : List (List ℕ)) → as_texts (view texts) ≡ Some listed → IsTextsFault place listed fault) }
{
    decode_texts(alloc, place, &texts)
}

/// The digests that a list of texts spells, of the path at this place.
fn decode_texts(alloc: Global, place: usize, texts: &Value) -> Result<KnownDigests, PolicyFault>
    requires { IsSome (as_texts (view texts.now)) }
    ensures decoded { IfOk result (λ known. (listed : List (List ℕ)) → as_texts (view texts.now) ≡ Some listed
        → (digests : List (List ℕ)) × AllZip SpellsDigest listed digests × (known ≡ finite_set.from_list digests)) }
    ensures fault { IfErr result (λ fault. (listed : List (List ℕ)) → as_texts (view texts.now) ≡ Some listed → IsTextsFault place listed fault) }
{
    let mut known = KnownDigests::none();
    let Some(items) = texts_of(texts) else {
        return Ok(known);
    };
    for (i, item) in items.iter().enumerate() {
        let Some(digest) = digest_of(item) else {
            return Err(PolicyFault::BadDigest(place, i));
        };
        known.push(alloc, &digest)?;
    }
    known.sort();
    Ok(known)
}

/// The digest that a text spells.
fn digest_of(value: &Value) -> Option<FileDigest>
    ensures read { IfSome result (λ digest. (text : List ℕ) × (as_str (view value.now) ≡ Some text) × SpellsDigest text digest) }
    ensures none { IfNone result ((text : List ℕ) → as_str (view value.now) ≡ Some text → ¬ IsGood text) }
{
    spelled_digest(value.as_str()?.as_bytes())
}
