//! A search for many patterns in many paths.

ghost use Rattle.std.specs.Prelude.{◌≡◌, map, IfOk};
ghost use Rattle.regex_meta.specs.Programs.{pattern_of};
ghost use Rattle.kl_exclude.specs.Excludes.{any_excludes};
ghost use Rattle.kl_exclude.specs.Inner.Joined.{AnswersFor};

use crate::apart::{any_hit, searchers};
use crate::front_searcher::FrontSearcher;
use crate::pattern::Pattern;
use crate::pattern_searcher::PatternSearcher;
use kl_base::Memory;
use regex_meta::Program;
use std::alloc::Global;
use std::marker::Model;

/// A search for all of some patterns in many paths. It holds the memory that it takes, so one is made for all paths of
/// an appraisal. A contract sees the patterns' texts.
#[derive(Drop)]
pub struct PathSearcher<'a> {
    patterns: &'a [Pattern],
    search: Search<'a>,
}

/// How patterns are searched for.
#[derive(Drop)]
enum Search<'a> {
    /// All at once.
    Together(FrontSearcher<'a>),
    /// One after the other, since there is no program for all of them.
    Apart(Vec<PatternSearcher<'a>>),
}

impl<'a> Model for PathSearcher<'a> {
    ghost use Rattle.std.specs.Prelude.{ℕ, List};
    ghost use Rattle.kl_exclude.specs.Inner.Searches.{SearchesFor};

    ghost Value = { List (List ℕ) };

    ghost view = { λ s. s.patterns.now };

    ghost invariant = { λ s. SearchesFor s.patterns.now s.search };
}

impl<'a> PathSearcher<'a> {
    /// A search by a program for all these patterns.
    pub(crate) fn together(
        alloc: Global,
        patterns: &'a [Pattern],
        program: &'a Program,
    ) -> Result<PathSearcher<'a>, Memory>
        requires { AnswersFor patterns.now (pattern_of program.now) }
        ensures { IfOk result (λ s. s ≡ patterns.now) }
    {
        let searcher = FrontSearcher::new(alloc, program)?;
        Ok(PathSearcher {
            patterns,
            search: Search::Together(searcher),
        })
    }

    /// A search for each of these patterns.
    pub(crate) fn apart(alloc: Global, patterns: &'a [Pattern]) -> Result<PathSearcher<'a>, Memory>
        ensures { IfOk result (λ s. s ≡ patterns.now) }
    {
        let each = searchers(alloc, patterns)?;
        Ok(PathSearcher {
            patterns,
            search: Search::Apart(each),
        })
    }

    /// Whether some pattern excludes the path. It takes no memory.
    pub fn excludes(&mut self, path: &str) -> bool
        ensures found { result ≡ any_excludes self.old path.now }
        ensures same { self.new ≡ self.old }
    {
        match &mut self.search {
            Search::Together(searcher) => searcher.begins(path),
            Search::Apart(each) => any_hit(each.as_mut_slice(), path),
        }
    }

    /// Of each path, whether some pattern excludes it.
    pub(crate) fn excluded(&mut self, alloc: Global, paths: &[&str]) -> Result<Vec<bool>, Memory>
        ensures { IfOk result (λ marks. marks.items ≡ map (λ path. any_excludes self.old path.now) paths.now) }
    {
        let mut marks = Vec::with_capacity(alloc, paths.len())?;
        for path in paths {
            let mark = self.excludes(path);
            marks.push(mark)?;
        }
        Ok(marks)
    }
}

/// Of each path, whether some pattern excludes it. The patterns are searched for one after another; a search is held for each.
///
/// # Errors
/// [`Memory`] where there is none for a search or for the answers.
pub fn excluded(alloc: Global, patterns: &[Pattern], paths: &[&str]) -> Result<Vec<bool>, Memory>
    ensures { IfOk result (λ marks. marks.items ≡ map (λ path. any_excludes patterns.now path.now) paths.now) }
{
    let mut searcher = PathSearcher::apart(alloc, patterns)?;
    searcher.excluded(alloc, paths)
}
