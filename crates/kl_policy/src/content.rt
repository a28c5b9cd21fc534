//! What a policy's text says.

ghost use Rattle.std.specs.Prelude.{◌≡◌, ◌↔◌, string_bytes, IsTrue};
ghost use Rattle.kl_policy.specs.Reading.{IsPolicy};

use kl_digests::DigestMap;
use kl_exclude::Patterns;
use kl_states::PolicyKind;
use std::marker::Model;

/// A text, and what it says in its form. Contracts see both.
#[derive(Drop)]
pub struct Content {
    pub source: String,
    pub kind: PolicyKind,
    pub digests: DigestMap,
    pub patterns: Patterns,
    pub passes_violations: bool,
}

impl Model for Content {
    ghost use Rattle.std.specs.Prelude.{string_bytes};
    ghost use Rattle.std.specs.Coded.{codes};
    ghost use Rattle.kl_digests.specs.Digests.{digest_map_code};
    ghost use Rattle.kl_policy.specs.PolicyFields.{PolicyFields};
    ghost use Rattle.kl_policy.specs.Reading.{IsReading};

    ghost Value = { PolicyFields };

    ghost coded = { Prim.hlevel (codes, digest_map_code) };

    ghost view = { λ c. record {
      source = string_bytes c.source;
      kind = c.kind;
      digests = c.digests;
      patterns = c.patterns;
      passes_violations = c.passes_violations;
    } };

    ghost invariant = { λ c. IsReading (string_bytes c.source) c.kind c.digests c.patterns c.passes_violations };
}

impl Content {
    /// Whether the other is equal. Since a text has one reading in its form, the form and the text alone are compared.
    pub fn equals(&self, other: &Content) -> bool
        ensures { IsTrue result ↔ (self.now ≡ other.now) }
    {
        self.kind == other.kind && self.source.as_str() == other.source.as_str()
    }

    /// Whether this is what that text says in that form: it was read from it.
    pub fn is_of(&self, kind: PolicyKind, text: &str) -> bool
        ensures is { IsTrue result → IsPolicy kind text.now self.now }
        ensures only { IsPolicy kind text.now self.now → IsTrue result }
    {
        self.kind == kind && self.source.as_str() == text
    }
}
