//! Flat policies.

ghost use Rattle.std.specs.Prelude.{◌≡◌, ◌≤◌, ℕ, [], false, string_bytes, IfOk, IfErr};
ghost use Rattle.std.specs.FinMap as finite_map;
ghost use Rattle.kl_digests.specs.Digests.{DigestMap};
ghost use Rattle.kl_policy.specs.Flat.{ListsDigests, BreaksAt, IsFlatFault, IsReadAs, IsRefusedAt};
ghost use Rattle.kl_entry.specs.Lines.{lines_of};

use crate::content::Content;
use crate::fault::{Limit, PolicyFault};
use crate::limits::MOST_PATHS;
use crate::line::read_line;
use crate::policy::Policy;
use kl_digests::DigestMap;
use kl_entry::lines;
use kl_exclude::Patterns;
use kl_states::PolicyKind;
use std::alloc::Global;

/// Reads a flat policy: an allowlist as `sha256sum` writes it in text mode, and not in binary mode (with a
/// `*` before the path) or with an escaped path (behind a backslash).
///
/// A line is 2 to 128 hexadecimal digits in either case, an even number of them, then two spaces, then
/// a path. Empty lines are skipped. The digests of a repeated path are added up. Violations fail.
///
/// # Errors
///
/// `Line` names the first line that is not so. `Limit(Paths)` comes where all lines are good, and
/// there are more than 262,144 distinct paths. `Memory` comes where memory runs out.
pub fn read_flat(alloc: Global, text: &str) -> Result<Policy, PolicyFault>
    ensures source { IfOk result (λ policy. policy.source ≡ text.now) }
    ensures kind { IfOk result (λ policy. policy.kind ≡ PolicyKind.Flat) }
    ensures digests { IfOk result (λ policy. ListsDigests text.now policy.digests) }
    ensures limit { IfOk result (λ policy. finite_map.len policy.digests ≤ MOST_PATHS) }
    ensures patterns { IfOk result (λ policy. policy.patterns ≡ []) }
    ensures violations { IfOk result (λ policy. policy.passes_violations ≡ false) }
    ensures fault { IfErr result (λ fault. IsFlatFault text.now fault) }
    ensures only { (digests : DigestMap) → ListsDigests text.now digests → IsReadAs result digests }
    ensures alone { (place : ℕ) → BreaksAt (lines_of text.now) place → IsRefusedAt result place }
{
    let digests = flat_digests(alloc, text)?;
    let source = String::from_str(alloc, text)?;
    flat_policy(alloc, source, digests)
}

/// The policy of a text that lists these digests.
pub fn flat_policy(alloc: Global, source: String, digests: DigestMap) -> Result<Policy, PolicyFault>
    requires lists { ListsDigests (string_bytes source) digests }
    requires few { finite_map.len digests ≤ 262144 }
    ensures source { IfOk result (λ policy. policy.source ≡ string_bytes source) }
    ensures kind { IfOk result (λ policy. policy.kind ≡ PolicyKind.Flat) }
    ensures digests { IfOk result (λ policy. policy.digests ≡ digests) }
    ensures patterns { IfOk result (λ policy. policy.patterns ≡ []) }
    ensures violations { IfOk result (λ policy. policy.passes_violations ≡ false) }
    ensures fault { IfErr result (λ fault. fault ≡ PolicyFault.Memory) }
{
    Ok(Policy::of(
        alloc,
        Content {
            source,
            kind: PolicyKind::Flat,
            digests,
            patterns: Patterns::none(alloc),
            passes_violations: false,
        },
    )?)
}

/// The digests that a flat policy's text lists.
pub fn flat_digests(alloc: Global, text: &str) -> Result<DigestMap, PolicyFault>
    ensures lists { IfOk result (λ digests. ListsDigests text.now digests) }
    ensures few { IfOk result (λ digests. finite_map.len digests ≤ MOST_PATHS) }
    ensures fault { IfErr result (λ fault. IsFlatFault text.now fault) }
{
    let digests = collect(alloc, text)?;
    if digests.len() > MOST_PATHS {
        return Err(PolicyFault::Limit(Limit::Paths));
    }
    Ok(digests)
}

/// The digests of the lines of `text`, by their paths.
fn collect(alloc: Global, text: &str) -> Result<DigestMap, PolicyFault>
    ensures digests { IfOk result (λ digests. ListsDigests text.now digests) }
    ensures fault { IfErr result (λ fault. IsFlatFault text.now fault) }
{
    let mut digests = DigestMap::new(alloc);
    let mut number = 0;
    for line in lines(text) {
        if !line.is_empty() {
            let Some(listed) = read_line(line) else {
                return Err(PolicyFault::Line(number));
            };
            digests.add(alloc, listed.path, &listed.digest)?;
        }
        number += 1;
    }
    // Where there are as many paths as lines, each has one digest.
    if digests.len() < number {
        digests.sort();
    }
    Ok(digests)
}
