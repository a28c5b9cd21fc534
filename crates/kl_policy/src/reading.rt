//! Policies in either form.

ghost use Rattle.std.specs.Prelude.{string_bytes, IfOk, IfErr};
ghost use Rattle.kl_policy.specs.Making.{AsksFor, IsNoPolicy};
ghost use Rattle.kl_policy.specs.Reading.{IsPolicy};

use crate::fault::PolicyFault;
use crate::flat::{flat_digests, flat_policy};
use crate::json_text::{json_parts, json_policy};
use crate::policy::Policy;
use kl_exclude::PatternMaker;
use kl_states::PolicyKind;
use std::alloc::Global;

/// Reads a policy of this form, as [`read_flat`](crate::read_flat) and [`read_json`](crate::read_json) do, and keeps
/// the text instead of a copy.
///
/// # Errors
///
/// Those of the two.
pub fn read_policy<P: PatternMaker>(
    alloc: Global,
    kind: PolicyKind,
    text: String,
    maker: &mut P,
) -> Result<Policy, PolicyFault>
    ensures policy { IfOk result (IsPolicy kind (string_bytes text)) }
    ensures asked { IfOk result (λ policy. AsksFor kind policy.patterns (P.told maker.old) (P.told maker.new)) }
    ensures fault { IfErr result (IsNoPolicy kind (string_bytes text) (P.told maker.old) (P.told maker.new)) }
{
    match kind {
        PolicyKind::Flat => {
            let digests = flat_digests(alloc, text.as_str())?;
            flat_policy(alloc, text, digests)
        }
        PolicyKind::Json => {
            let parts = json_parts(alloc, text.as_str(), maker)?;
            json_policy(alloc, text, parts)
        }
    }
}
