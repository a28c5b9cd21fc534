//! The patterns of one policy.

ghost use Rattle.std.specs.Prelude.{◌≡◌, ◌↔◌, [], map, IfOk, IsTrue};
ghost use Rattle.kl_exclude.specs.Excludes.{any_excludes};

use crate::path_searcher::PathSearcher;
use crate::pattern::Pattern;
use crate::program::join;
use kl_base::Memory;
use regex_meta::Program;
use std::alloc::Global;
use std::marker::Model;

/// Compiled patterns and, where it can be had, one program that searches for all of them at once. A contract sees
/// their texts.
///
/// Threads may share them.
#[derive(Drop)]
pub struct Patterns {
    list: Vec<Pattern>,
    program: Option<Program>,
}

impl Model for Patterns {
    ghost use Rattle.std.specs.Prelude.{ℕ, List, IfSome};
    ghost use Rattle.regex_meta.specs.Programs.{pattern_of};
    ghost use Rattle.kl_exclude.specs.Inner.Joined.{AnswersFor};

    ghost Value = { List (List ℕ) };

    ghost view = { λ p. p.list.items };

    ghost invariant = { λ p. IfSome p.program (λ j. AnswersFor p.list.items (pattern_of j)) };
}

impl Patterns {
    /// No pattern, which excludes nothing. It takes no memory.
    pub fn none(alloc: Global) -> Patterns
        ensures { result ≡ [] }
    {
        Patterns {
            list: Vec::new(alloc),
            program: None,
        }
    }

    /// These patterns.
    ///
    /// # Errors
    /// [`Memory`] where there is none for their program.
    pub fn new(alloc: Global, list: Vec<Pattern>) -> Result<Patterns, Memory>
        ensures { IfOk result (λ p. p ≡ list.items) }
    {
        let program = if list.is_empty() {
            None
        } else {
            join(alloc, list.as_slice())?
        };
        Ok(Patterns { list, program })
    }

    /// Whether there is no pattern.
    pub fn is_empty(&self) -> bool
        ensures { IsTrue result ↔ (self.now ≡ []) }
    {
        self.list.is_empty()
    }

    /// Whether there is one program for all of them. It says how they are searched for, and nothing of what is found.
    pub fn are_joined(&self) -> bool {
        self.program.is_some()
    }

    /// A search for these patterns in many paths: for all at once, where there is a program for that.
    ///
    /// # Errors
    /// [`Memory`] where there is none for the search.
    pub fn searcher(&self, alloc: Global) -> Result<PathSearcher<'_>, Memory>
        ensures { IfOk result (λ s. s ≡ self.now) }
    {
        match &self.program {
            Some(program) => PathSearcher::together(alloc, self.list.as_slice(), program),
            None => PathSearcher::apart(alloc, self.list.as_slice()),
        }
    }

    /// Of each path, whether some pattern excludes it.
    ///
    /// # Errors
    /// [`Memory`] where there is none for a search or for the answers.
    pub fn excluded(&self, alloc: Global, paths: &[&str]) -> Result<Vec<bool>, Memory>
        ensures { IfOk result (λ marks. marks.items ≡ map (λ path. any_excludes self.now path.now) paths.now) }
    {
        let mut searcher = self.searcher(alloc)?;
        searcher.excluded(alloc, paths)
    }
}
