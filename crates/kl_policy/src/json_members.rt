//! The members of a JSON policy besides its digests.

ghost use Rattle.std.specs.Prelude.{◌≡◌, ◌↔◌, ◌++◌, ◌∷◌, [], ℕ, List, Some, None, OnOk, IfOk, IfErr, IfSome, IfNone, IsTrue, IsSome, All, map, string_bytes, is_some};
ghost use Rattle.serde_json.specs.View.{view, items_view};
ghost use Rattle.kl_policy.specs.Json.{as_texts, as_blank, texts_in, IsBlank, IsShort, IsSupported, HasPatterns, HasChoice, HasSomeChoice, HasSomePatterns};
ghost use Rattle.kl_policy.specs.Inner.JsonParts.{AreTexts, IsCopyFault, IsRestFault};

use crate::fault::{Limit, PolicyFault};
use crate::limits::{MOST_PATTERN_BYTES, MOST_PATTERNS};
use kl_base::Memory;
use kl_json::{JsonFault, Value};
use std::alloc::Global;

/// What a policy says besides its digests.
#[derive(Drop)]
pub struct Rest {
    /// The texts of its exclude patterns.
    pub patterns: Vec<String>,
    pub passes_violations: bool,
}

/// What a policy says besides its digests.
pub fn rest_of(alloc: Global, policy: &Value) -> Result<Rest, PolicyFault>
    ensures patterns { IfOk result (λ rest. HasPatterns (view policy.now) (map string_bytes rest.patterns.items)) }
    ensures choice { IfOk result (λ rest. HasChoice (view policy.now) rest.passes_violations) }
    ensures supported { IfOk result (λ rest. IsSupported (view policy.now)) }
    ensures fault { IfErr result (λ fault. IsRestFault (view policy.now) fault) }
{
    let patterns = patterns_of(alloc, policy)?;
    let passes_violations = passes_violations(policy)?;
    check_supported(policy)?;
    Ok(Rest {
        patterns,
        passes_violations,
    })
}

/// The texts of a policy's exclude patterns, none where it names none.
fn patterns_of(alloc: Global, policy: &Value) -> Result<Vec<String>, PolicyFault>
    ensures patterns { IfOk result (λ patterns. HasPatterns (view policy.now) (map string_bytes patterns.items)) }
    ensures fault { IfErr result (λ fault. IsRestFault (view policy.now) fault) }
{
    let Some(excludes) = policy.get("excludes") else {
        return Ok(Vec::new(alloc));
    };
    let Some(items) = texts_of(excludes) else {
        return Err(PolicyFault::Json(JsonFault::Kind("excludes")));
    };
    if items.len() > MOST_PATTERNS {
        return Err(PolicyFault::Limit(Limit::Patterns));
    }
    copied(alloc, items)
}

/// The items of a list of texts.
pub fn texts_of(value: &Value) -> Option<&[Value]>
    ensures found { IfSome result (λ items. (texts : List (List ℕ)) × (as_texts (view value.now) ≡ Some texts) × AreTexts items.now texts) }
    ensures none { IfNone result (as_texts (view value.now) ≡ None) }
{
    let items = value.as_array()?.as_slice();
    if are_texts(items) { Some(items) } else { None }
}

/// Whether each value is a text.
fn are_texts(items: &[Value]) -> bool
    ensures { result ≡ is_some (texts_in (items_view items.now)) }
{
    for item in items {
        if !item.is_string() {
            return false;
        }
    }
    true
}

/// Copies texts of which none is too long for a pattern.
fn copied(alloc: Global, items: &[Value]) -> Result<Vec<String>, PolicyFault>
    requires { IsSome (texts_in (items_view items.now)) }
    ensures copied { IfOk result (λ copies. texts_in (items_view items.now) ≡ Some (map string_bytes copies.items)) }
    ensures short { IfOk result (λ copies. All IsShort (map string_bytes copies.items)) }
    ensures fault { IfErr result (λ fault. (texts : List (List ℕ)) → texts_in (items_view items.now) ≡ Some texts → IsCopyFault texts fault) }
{
    let mut copies = Vec::with_capacity(alloc, items.len())?;
    for item in items {
        if let Some(text) = item.as_str() {
            if text.len() > MOST_PATTERN_BYTES {
                return Err(PolicyFault::Limit(Limit::PatternBytes));
            }
            push_copy(alloc, &mut copies, text)?;
        }
    }
    Ok(copies)
}

fn push_copy(alloc: Global, copies: &mut Vec<String>, text: &str) -> Result<(), Memory>
    ensures { OnOk result (map string_bytes copies.new.items ≡ map string_bytes copies.old.items ++ text.now ∷ []) }
{
    copies.push(String::from_str(alloc, text)?)?;
    Ok(())
}

/// Whether the policy passes violations. It does not where it does not say so.
fn passes_violations(policy: &Value) -> Result<bool, PolicyFault>
    ensures choice { IfOk result (λ passes. HasChoice (view policy.now) passes) }
    ensures fault { IfErr result (λ fault. HasSomePatterns (view policy.now) → IsRestFault (view policy.now) fault) }
{
    let Some(value) = policy.get("kl-violations") else {
        return Ok(false);
    };
    match value.as_str() {
        Some("pass") => Ok(true),
        Some("fail") => Ok(false),
        _ => Err(PolicyFault::Json(JsonFault::Kind("kl-violations"))),
    }
}

/// Tests that the policy asks for nothing that is not supported.
fn check_supported(policy: &Value) -> Result<(), PolicyFault>
    ensures supported { IfOk result (λ _. IsSupported (view policy.now)) }
    ensures fault { IfErr result (λ fault. HasSomePatterns (view policy.now) → HasSomeChoice (view policy.now)
        → IsRestFault (view policy.now) fault) }
{
    check_blank(policy, "keyrings")?;
    check_blank(policy, "ima-buf")?;
    check_blank(policy, "verification-keys")
}

/// Tests that the member of this name is absent or says nothing.
fn check_blank(policy: &Value, name: &'static str) -> Result<(), PolicyFault>
    ensures blank { IfOk result (λ _. IsBlank name.now (view policy.now)) }
    ensures fault { IfErr result (λ fault. (fault ≡ PolicyFault.Unsupported name.entry) × (¬ IsBlank name.now (view policy.now))) }
{
    match policy.get(name) {
        Some(value) if !says_nothing(value) => Err(PolicyFault::Unsupported(name)),
        _ => Ok(()),
    }
}

/// Whether the value is null, or an empty text, object or list.
fn says_nothing(value: &Value) -> bool
    ensures { IsTrue result ↔ (IsSome (as_blank (view value.now))) }
{
    match value {
        Value::Null => true,
        Value::String(text) => text.is_empty(),
        Value::Object(members) => members.is_empty(),
        Value::Array(items) => items.is_empty(),
        Value::Bool(_) | Value::Number(_) => false,
    }
}
