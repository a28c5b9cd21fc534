//! One pattern that is searched for in many paths.

ghost use Rattle.std.specs.Prelude.{◌≡◌, IfOk};
ghost use Rattle.kl_exclude.specs.Excludes.{excludes};

use crate::pattern::{Pattern, is_hit};
use kl_base::Memory;
use regex::Matcher;
use std::alloc::Global;
use std::marker::Model;

/// A search for one pattern in many paths. It holds the memory that its search takes. A contract sees the pattern's text.
#[derive(Drop)]
pub(crate) struct PatternSearcher<'a> {
    pattern: &'a Pattern,
    matcher: Matcher<'a>,
}

impl<'a> Model for PatternSearcher<'a> {
    ghost use Rattle.std.specs.Prelude.{ℕ, List};
    ghost use Rattle.regex.specs.Strings.{matcher_pattern};
    ghost use Rattle.kl_exclude.specs.Inner.Joined.{StandsFor};

    ghost Value = { List ℕ };

    ghost view = { λ s. s.pattern.now };

    ghost invariant = { λ s. StandsFor s.pattern.now (matcher_pattern s.matcher) };
}

impl<'a> PatternSearcher<'a> {
    /// A search for this pattern.
    pub(crate) fn new(alloc: Global, pattern: &'a Pattern) -> Result<PatternSearcher<'a>, Memory>
        ensures { IfOk result (λ s. s ≡ pattern.now) }
    {
        let matcher = pattern.matcher(alloc)?;
        Ok(PatternSearcher { pattern, matcher })
    }

    /// Whether the pattern excludes the path. It takes no memory.
    pub(crate) fn excludes(&mut self, path: &str) -> bool
        ensures found { result ≡ excludes self.old path.now }
        ensures same { self.new ≡ self.old }
    {
        is_hit(&mut self.matcher, path)
    }
}
