//! Patterns that are searched for one after another.

ghost use Rattle.std.specs.Prelude.{◌≡◌, IfOk};
ghost use Rattle.kl_exclude.specs.Excludes.{any_excludes};

use crate::pattern::Pattern;
use crate::pattern_searcher::PatternSearcher;
use kl_base::Memory;
use std::alloc::Global;

/// A search for each pattern.
pub(crate) fn searchers<'a>(
    alloc: Global,
    patterns: &'a [Pattern],
) -> Result<Vec<PatternSearcher<'a>>, Memory>
    ensures { IfOk result (λ searchers. searchers.items ≡ patterns.now) }
{
    let mut searchers = Vec::with_capacity(alloc, patterns.len())?;
    for pattern in patterns {
        let searcher = PatternSearcher::new(alloc, pattern)?;
        searchers.push(searcher)?;
    }
    Ok(searchers)
}

/// Whether some pattern excludes the path. It takes no memory.
pub(crate) fn any_hit(searchers: &mut [PatternSearcher<'_>], path: &str) -> bool
    ensures found { result ≡ any_excludes searchers.old path.now }
    ensures same { searchers.new ≡ searchers.old }
{
    for searcher in searchers.iter_mut() {
        if searcher.excludes(path) {
            return true;
        }
    }
    false
}
