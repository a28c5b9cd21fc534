//! Whether a policy allows one entry after the other.

ghost use Rattle.std.specs.Prelude.{◌≡◌, [], IfOk, IsOk};
ghost use Rattle.kl_entry.specs.Entries.{is_consistent};
ghost use Rattle.kl_exclude.specs.Excludes.{any_excludes};
ghost use Rattle.kl_policy.specs.Policy.{why_of};

use crate::policy::Policy;
use crate::why::Why;
use kl_base::Memory;
use kl_entry::{Entry, violation};
use kl_exclude::PathSearcher;
use std::alloc::Global;
use std::marker::Model;

/// Judges entries under one policy. Its exclude patterns are made ready once, when the first entry needs them: one
/// that is allowed by its digest needs none. Contracts see the policy.
#[derive(Drop)]
pub struct Judge<'a> {
    policy: &'a Policy,
    /// The search for its patterns, once an entry has needed it.
    searcher: Option<PathSearcher<'a>>,
}

impl<'a> Model for Judge<'a> {
    ghost use Rattle.std.specs.Prelude.{◌≡◌, IfSome};
    ghost use Rattle.std.specs.Coded.{codes};
    ghost use Rattle.kl_digests.specs.Digests.{digest_map_code};
    ghost use Rattle.kl_policy.specs.PolicyFields.{PolicyFields};

    ghost Value = { PolicyFields };

    ghost coded = { Prim.hlevel (codes, digest_map_code) };

    ghost view = { λ j. j.policy.now };

    ghost invariant = { λ j. IfSome j.searcher (λ searcher. searcher ≡ j.policy.now.patterns) };
}

impl<'a> Judge<'a> {
    /// Judges under this policy.
    pub fn new(policy: &'a Policy) -> Judge<'a>
        ensures { result ≡ policy.now }
    {
        Judge {
            policy,
            searcher: None,
        }
    }

    /// Why the policy does not allow `entry`: the first reason that applies, or `None` where it allows
    /// it. `consistent` says whether the entry is consistent, which the caller knows.
    ///
    /// # Errors
    ///
    /// `Memory` where memory runs out, which a policy without exclude patterns does not need.
    pub fn why(
        &mut self,
        alloc: Global,
        entry: &Entry<'_>,
        consistent: bool,
    ) -> Result<Option<Why>, Memory>
        requires { consistent ≡ is_consistent entry.now }
        ensures why { IfOk result (λ why. why ≡ why_of self.old entry.now) }
        ensures plain { self.old.patterns ≡ [] → IsOk result }
        ensures same { self.new ≡ self.old }
    {
        let content = self.policy.content();
        if violation(entry) {
            return Ok((!content.passes_violations).then_some(Why::Violation));
        }
        if !consistent {
            return Ok(Some(Why::Inconsistent));
        }
        let unlisted = match content.digests.find(entry.path()) {
            None => Why::Unknown,
            Some(known) if known.contains(entry.digest().as_slice()) => return Ok(None),
            Some(_) => Why::Digest,
        };
        if self.excludes(alloc, entry.path())? {
            Ok(None)
        } else {
            Ok(Some(unlisted))
        }
    }

    /// Whether some exclude pattern excludes the path.
    fn excludes(&mut self, alloc: Global, path: &str) -> Result<bool, Memory>
        ensures found { IfOk result (λ found. found ≡ any_excludes self.old.patterns path.now) }
        ensures plain { self.old.patterns ≡ [] → IsOk result }
        ensures same { self.new ≡ self.old }
    {
        if let Some(searcher) = &mut self.searcher {
            return Ok(searcher.excludes(path));
        }
        let patterns = &self.policy.content().patterns;
        if patterns.is_empty() {
            return Ok(false);
        }
        let mut searcher = patterns.searcher(alloc)?;
        let found = searcher.excludes(path);
        self.searcher = Some(searcher);
        Ok(found)
    }
}
