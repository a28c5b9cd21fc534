//! A compiled pattern.

ghost use Rattle.std.specs.Prelude.{◌≡◌, ℕ, List, IfOk};
ghost use Rattle.regex.specs.Strings.{matcher_pattern, regex_source, regex_config, IsReadFromSource};
ghost use Rattle.kl_exclude.specs.Excludes.{excludes};
ghost use Rattle.kl_exclude.specs.Inner.Joined.{StandsFor};
ghost use Rattle.kl_exclude.specs.Making.{IsRegexOf};

use kl_base::Memory;
use regex::{Matcher, Regex};
use std::alloc::Global;
use std::marker::Model;

/// A compiled pattern. A contract sees its text.
#[derive(Drop)]
pub struct Pattern {
    regex: Regex,
}

impl Model for Pattern {
    ghost use Rattle.std.specs.Prelude.{ℕ, List};
    ghost use Rattle.regex.specs.Strings.{regex_source, regex_pattern};
    ghost use Rattle.kl_exclude.specs.Inner.Joined.{StandsFor};

    ghost Value = { List ℕ };

    ghost view = { λ p. regex_source p.regex };

    ghost invariant = { λ p. StandsFor (regex_source p.regex) (regex_pattern p.regex) };
}

impl Pattern {
    /// The pattern that `regex` read from the text.
    pub(crate) fn new(regex: Regex) -> Pattern
        requires { IsRegexOf (regex_source regex) regex }
        ensures { result ≡ regex_source regex }
    {
        Pattern { regex }
    }

    /// The text of the pattern.
    pub fn text(&self) -> &str
        ensures { result.now ≡ self.now }
    {
        self.regex.as_str()
    }

    /// What searches in paths. It holds memory for its search.
    pub(crate) fn matcher(&self, alloc: Global) -> Result<Matcher<'_>, Memory>
        ensures { IfOk result (λ m. StandsFor self.now (matcher_pattern m)) }
    {
        let matcher = self.regex.matcher(alloc)?;
        Ok(matcher)
    }
}

/// Whether the leftmost match begins at byte 0.
pub(crate) fn is_hit(matcher: &mut Matcher<'_>, path: &str) -> bool
    ensures found { (text : List ℕ) → StandsFor text (matcher_pattern matcher.old) → result ≡ excludes text path.now }
    ensures same { matcher_pattern matcher.new ≡ matcher_pattern matcher.old }
{
    match matcher.find(path) {
        Some(found) => found.start() == 0,
        None => false,
    }
}
