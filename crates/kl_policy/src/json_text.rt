//! JSON policies.

ghost use Rattle.std.specs.Prelude.{◌≡◌, ◌≤◌, All, map, length, string_bytes, IfOk, IfErr};
ghost use Rattle.serde_json.specs.Data.{Data};
ghost use Rattle.serde_json.specs.View.{view};
ghost use Rattle.kl_exclude.specs.Excludes.{IsPattern};
ghost use Rattle.kl_exclude.specs.Told.{MakerTold};
ghost use Rattle.kl_json.specs.Reading.{Reads};
ghost use Rattle.kl_policy.specs.Json.{HasParts};
ghost use Rattle.kl_policy.specs.Making.{IsJsonFault, Makes};
ghost use Rattle.kl_policy.specs.Reading.{IsJson, IsPolicy};
ghost use Rattle.kl_policy.specs.Inner.JsonParts.{IsParseFault, IsCompileFault};

use crate::content::Content;
use crate::fault::PolicyFault;
use crate::json_digests::digests_of;
use crate::json_members::rest_of;
use crate::json_split::{Said, said_over};
use crate::policy::Policy;
use kl_base::Memory;
use kl_digests::DigestMap;
use kl_exclude::{ExcludeFault, PatternMaker, Patterns, compile};
use kl_json::{JsonFault, Value, parse};
use kl_states::PolicyKind;
use std::alloc::Global;

/// Reads a JSON policy, as Keylime writes it (its runtime policy, version 1): an object with the members `digests`, an
/// object of lists of digests by their paths, `excludes`, a list of patterns, and `kl-violations`, which is `"pass"`
/// or `"fail"`. The members `keyrings`, `ima-buf` and `verification-keys` must say nothing; all others may say what
/// they like.
///
/// # Errors
///
/// The first of these. `Json(NotJson)` where the text is no JSON, and `Json(Kind("policy"))` where it is no object.
/// `Json(Missing)`, `Json(Kind)`, `Limit(Paths)` and `BadDigest` of the digests. `Json(Kind)`, `Limit(Patterns)` and
/// `Limit(PatternBytes)` of the excludes. `Json(Kind)` of the violations. `Unsupported`. `Exclude`, where a pattern is
/// none or too large. `Memory` comes where memory runs out.
pub fn read_json<P: PatternMaker>(
    alloc: Global,
    text: &str,
    maker: &mut P,
) -> Result<Policy, PolicyFault>
    ensures policy { IfOk result (IsPolicy PolicyKind.Json text.now) }
    ensures asked { IfOk result (λ policy. Makes policy.patterns (P.told maker.old) (P.told maker.new)) }
    ensures fault { IfErr result (IsJsonFault text.now (P.told maker.old) (P.told maker.new)) }
{
    let parts = json_parts(alloc, text, maker)?;
    let source = String::from_str(alloc, text)?;
    json_policy(alloc, source, parts)
}

/// What a JSON policy says.
#[derive(Drop)]
pub struct Parts {
    pub digests: DigestMap,
    pub patterns: Patterns,
    pub passes_violations: bool,
}

/// The policy of a text that has these parts.
pub fn json_policy(alloc: Global, source: String, parts: Parts) -> Result<Policy, PolicyFault>
    requires { IsJson (string_bytes source) parts.digests parts.patterns parts.passes_violations }
    ensures policy { IfOk result (IsPolicy PolicyKind.Json (string_bytes source)) }
    ensures patterns { IfOk result (λ policy. policy.patterns ≡ parts.patterns) }
    ensures fault { IfErr result (λ fault. fault ≡ PolicyFault.Memory) }
{
    Ok(Policy::of(
        alloc,
        Content {
            source,
            kind: PolicyKind::Json,
            digests: parts.digests,
            patterns: parts.patterns,
            passes_violations: parts.passes_violations,
        },
    )?)
}

/// The parts of a JSON policy's text.
pub fn json_parts<P: PatternMaker>(
    alloc: Global,
    text: &str,
    maker: &mut P,
) -> Result<Parts, PolicyFault>
    ensures parts { IfOk result (λ parts. IsJson text.now parts.digests parts.patterns parts.passes_violations) }
    ensures asked { IfOk result (λ parts. Makes parts.patterns (P.told maker.old) (P.told maker.new)) }
    ensures fault { IfErr result (IsJsonFault text.now (P.told maker.old) (P.told maker.new)) }
{
    let said = match said_of(alloc, text) {
        Ok(said) => said,
        Err(fault) => return Err(fault),
    };
    let patterns = compiled(alloc, maker, said.rest.patterns.as_slice())?;
    Ok(Parts {
        digests: said.digests,
        patterns,
        passes_violations: said.rest.passes_violations,
    })
}

/// What a JSON policy's text says.
fn said_of(alloc: Global, text: &str) -> Result<Said, PolicyFault>
    ensures said { IfOk result (λ said. (d : Data) × Reads text.now d
        × HasParts d said.digests (map string_bytes said.rest.patterns.items) said.rest.passes_violations) }
    ensures fault { IfErr result (λ fault. (told : MakerTold) → IsJsonFault text.now told told fault) }
{
    let found = match said_over(alloc, text) {
        Ok(found) => found,
        Err(Memory) => return Err(PolicyFault::Memory),
    };
    match found {
        Some(said) => Ok(said),
        None => said_by_value(alloc, text),
    }
}

/// The same, read as a value: slower, and it tells the first fault.
fn said_by_value(alloc: Global, text: &str) -> Result<Said, PolicyFault>
    ensures said { IfOk result (λ said. (d : Data) × Reads text.now d
        × HasParts d said.digests (map string_bytes said.rest.patterns.items) said.rest.passes_violations) }
    ensures fault { IfErr result (λ fault. (told : MakerTold) → IsJsonFault text.now told told fault) }
{
    let value = match parsed(alloc, text) {
        Ok(value) => value,
        Err(fault) => return Err(fault),
    };
    // Read before the digests are moved out of the value; a fault of theirs comes first.
    let rest = rest_of(alloc, &value);
    let digests = match digests_of(alloc, value) {
        Ok(digests) => digests,
        Err(fault) => return Err(fault),
    };
    match rest {
        Ok(rest) => Ok(Said { digests, rest }),
        Err(fault) => Err(fault),
    }
}

/// The value that a text is.
fn parsed(alloc: Global, text: &str) -> Result<Value, PolicyFault>
    ensures read { IfOk result (λ value. Reads text.now (view value)) }
    ensures fault { IfErr result (IsParseFault text.now) }
{
    match parse(alloc, text.as_bytes()) {
        Ok(value) => Ok(value),
        Err(JsonFault::NotJson) => Err(PolicyFault::Json(JsonFault::NotJson)),
        Err(_) => Err(PolicyFault::Memory),
    }
}

/// The patterns that these texts are.
fn compiled<P: PatternMaker>(
    alloc: Global,
    maker: &mut P,
    texts: &[String],
) -> Result<Patterns, PolicyFault>
    requires { All (λ text. length (string_bytes text) ≤ 512) texts.now }
    ensures patterns { IfOk result (λ patterns. patterns ≡ map string_bytes texts.now) }
    ensures read { IfOk result (λ _. All IsPattern (map string_bytes texts.now)) }
    ensures asked { IfOk result (λ _. Makes (map string_bytes texts.now) (P.told maker.old) (P.told maker.new)) }
    ensures fault { IfErr result (IsCompileFault (map string_bytes texts.now) (P.told maker.old) (P.told maker.new)) }
{
    match compile(alloc, maker, texts) {
        Ok(list) => Ok(Patterns::new(alloc, list)?),
        Err(ExcludeFault::Memory) => Err(PolicyFault::Memory),
        Err(fault) => Err(PolicyFault::Exclude(fault)),
    }
}
