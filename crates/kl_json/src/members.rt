//! Members of an object, by name and kind.

ghost use Rattle.std.specs.Prelude.{◌≡◌, ◌⊎◌, ◌↔◌, ◌≤◌, Some, IfOk, IfErr, Err};
ghost use Rattle.serde_json.specs.Find.{as_str, as_array, as_object};
ghost use Rattle.serde_json.specs.View.{view, items_view, members_view};
ghost use Rattle.kl_json.specs.Members.{member_as, as_count, IsMissing, IsOther, IsAbove};

use crate::fault::JsonFault;
use serde_json::{Map, Value};

fn member<'a>(value: &'a Value, name: &'static str) -> Result<&'a Value, JsonFault>
    ensures found { IfOk result (λ found. member_as Some name.now (view value.now) ≡ Some (view found.now)) }
    ensures missing { IfErr result (λ fault. (fault ≡ JsonFault.Missing name.entry) × IsMissing name.now (view value.now)) }
{
    value.get(name).ok_or(JsonFault::Missing(name))
}

/// The text that is the member of this name.
///
/// # Errors
/// [`JsonFault::Missing`] where the value is no object or has no member of this name, [`JsonFault::Kind`] where the
/// member is no text.
pub fn text_member<'a>(value: &'a Value, name: &'static str) -> Result<&'a str, JsonFault>
    ensures found { IfOk result (λ text. member_as as_str name.now (view value.now) ≡ Some text.now) }
    ensures missing { result ≡ Err (JsonFault.Missing name.entry) ↔ IsMissing name.now (view value.now) }
    ensures kind { result ≡ Err (JsonFault.Kind name.entry) ↔ IsOther as_str name.now (view value.now) }
    ensures only { IfErr result
        (λ fault. (fault ≡ JsonFault.Missing name.entry) ⊎ (fault ≡ JsonFault.Kind name.entry)) }
{
    member(value, name)?.as_str().ok_or(JsonFault::Kind(name))
}

/// The number that is the member of this name, up to `max`.
///
/// # Errors
/// [`JsonFault::Missing`] where the value is no object or has no member of this name, [`JsonFault::Kind`] where the
/// member is no number or one with a sign, a fraction, an exponent or more than 64 bits, [`JsonFault::Range`] where it
/// is above `max`.
pub fn number_member(value: &Value, name: &'static str, max: u64) -> Result<u64, JsonFault>
    ensures found { IfOk result
        (λ number. (member_as as_count name.now (view value.now) ≡ Some number) × (number ≤ max)) }
    ensures missing { result ≡ Err (JsonFault.Missing name.entry) ↔ IsMissing name.now (view value.now) }
    ensures kind { result ≡ Err (JsonFault.Kind name.entry) ↔ IsOther as_count name.now (view value.now) }
    ensures range { result ≡ Err (JsonFault.Range name.entry) ↔ IsAbove max name.now (view value.now) }
    ensures only { IfErr result (λ fault. (fault ≡ JsonFault.Missing name.entry)
        ⊎ (fault ≡ JsonFault.Kind name.entry) ⊎ (fault ≡ JsonFault.Range name.entry)) }
{
    let Some(number) = member(value, name)?.as_u64() else {
        return Err(JsonFault::Kind(name));
    };
    if number > max {
        return Err(JsonFault::Range(name));
    }
    Ok(number)
}

/// The object that is the member of this name.
///
/// # Errors
/// [`JsonFault::Missing`] where the value is no object or has no member of this name, [`JsonFault::Kind`] where the
/// member is no object.
pub fn object_member<'a>(
    value: &'a Value,
    name: &'static str,
) -> Result<&'a Map<String, Value>, JsonFault>
    ensures found { IfOk result
        (λ map. member_as as_object name.now (view value.now) ≡ Some (members_view map.now.entries)) }
    ensures missing { result ≡ Err (JsonFault.Missing name.entry) ↔ IsMissing name.now (view value.now) }
    ensures kind { result ≡ Err (JsonFault.Kind name.entry) ↔ IsOther as_object name.now (view value.now) }
    ensures only { IfErr result
        (λ fault. (fault ≡ JsonFault.Missing name.entry) ⊎ (fault ≡ JsonFault.Kind name.entry)) }
{
    member(value, name)?
        .as_object()
        .ok_or(JsonFault::Kind(name))
}

/// The items of the list that is the member of this name.
///
/// # Errors
/// [`JsonFault::Missing`] where the value is no object or has no member of this name, [`JsonFault::Kind`] where the
/// member is no list.
pub fn list_member<'a>(value: &'a Value, name: &'static str) -> Result<&'a [Value], JsonFault>
    ensures found { IfOk result
        (λ list. member_as as_array name.now (view value.now) ≡ Some (items_view list.now)) }
    ensures missing { result ≡ Err (JsonFault.Missing name.entry) ↔ IsMissing name.now (view value.now) }
    ensures kind { result ≡ Err (JsonFault.Kind name.entry) ↔ IsOther as_array name.now (view value.now) }
    ensures only { IfErr result
        (λ fault. (fault ≡ JsonFault.Missing name.entry) ⊎ (fault ≡ JsonFault.Kind name.entry)) }
{
    match member(value, name)?.as_array() {
        Some(list) => Ok(list.as_slice()),
        None => Err(JsonFault::Kind(name)),
    }
}
