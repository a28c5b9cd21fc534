//! A policy, and what it allows.

ghost use Rattle.std.specs.Prelude.{◌≡◌, ◌↔◌, [], IfOk, IsOk, IsTrue};
ghost use Rattle.std.specs.Arc.{arc_value};
ghost use Rattle.kl_policy.specs.Policy.{IsFirstBad};
ghost use Rattle.kl_policy.specs.Reading.{IsPolicy};

use crate::content::Content;
use crate::judge::Judge;
use crate::why::Why;
use kl_base::Memory;
use kl_entry::{Entry, EntryData, consistent_with};
use kl_states::PolicyKind;
use std::alloc::Global;
use std::marker::Model;
use std::sync::Arc;

/// A runtime policy: the text that it was read from, and what that says. Several owners may share it.
///
/// Contracts see it as its text, the form of that, a map from paths to sets of digests, the texts of its exclude
/// patterns, and whether violations pass.
#[derive(Drop)]
pub struct Policy {
    content: Arc<Content>,
}

impl Model for Policy {
    ghost use Rattle.std.specs.Coded.{codes};
    ghost use Rattle.std.specs.Arc.{arc_value};
    ghost use Rattle.kl_digests.specs.Digests.{digest_map_code};
    ghost use Rattle.kl_policy.specs.PolicyFields.{PolicyFields};

    ghost Value = { PolicyFields };

    ghost coded = { Prim.hlevel (codes, digest_map_code) };

    ghost view = { λ p. arc_value p.content };
}

impl Policy {
    pub(crate) fn of(alloc: Global, content: Content) -> Result<Policy, Memory>
        ensures { IfOk result (λ policy. policy ≡ content) }
    {
        Ok(Policy {
            content: Arc::new(alloc, content)?,
        })
    }

    pub(crate) fn content(&self) -> &Content
        ensures { result.now ≡ self.now }
    {
        &self.content
    }

    /// One owner more, which copies none of it.
    ///
    /// # Errors
    ///
    /// `Memory` where the count of owners cannot grow.
    pub fn share(&self) -> Result<Policy, Memory>
        ensures { IfOk result (λ policy. policy ≡ self.now) }
    {
        Ok(Policy {
            content: Arc::try_clone(&self.content)?,
        })
    }

    /// The text that the policy was read from.
    pub fn source(&self) -> &str
        ensures { result.now ≡ self.now.source }
    {
        self.content().source.as_str()
    }

    /// The form of that text. A flat policy excludes no path.
    pub fn kind(&self) -> PolicyKind
        ensures kind { result ≡ self.now.kind }
        ensures flat { result ≡ PolicyKind.Flat → self.now.patterns ≡ [] }
    {
        self.content().kind
    }

    /// Whether the other policy is equal, which is whether it was read from the same text in the same form.
    pub fn equals(&self, other: &Policy) -> bool
        ensures { IsTrue result ↔ (self.now ≡ other.now) }
    {
        self.content().equals(other.content())
    }

    /// Whether the policy was read from that text in that form, so that it is what the text says.
    pub fn is_of(&self, kind: PolicyKind, text: &str) -> bool
        ensures is { IsTrue result → IsPolicy kind text.now self.now }
        ensures only { IsPolicy kind text.now self.now → IsTrue result }
    {
        self.content().is_of(kind, text)
    }

    /// The place of the first of `entries` that the policy does not allow, and why it does not; `None`
    /// where it allows them all. Places are counted from 0.
    ///
    /// # Errors
    ///
    /// `Memory` where memory runs out, which a policy without exclude patterns does not need.
    pub fn first_bad(
        &self,
        alloc: Global,
        entries: &[Entry<'_>],
    ) -> Result<Option<(usize, Why)>, Memory>
        ensures first { IfOk result (λ found. IsFirstBad self.now entries.now found) }
        ensures plain { self.now.patterns ≡ [] → IsOk result }
    {
        let mut judge = Judge::new(self);
        let mut data = EntryData::new();
        for (i, entry) in entries.iter().enumerate() {
            data.lay_out(entry);
            let found = judge.why(alloc, entry, consistent_with(entry, &data))?;
            if let Some(why) = found {
                return Ok(Some((i, why)));
            }
        }
        Ok(None)
    }
}
