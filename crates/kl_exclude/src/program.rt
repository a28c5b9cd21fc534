//! Many patterns as one program.

ghost use Rattle.std.specs.Prelude.{◌≡◌, map, IfOk, IfSome};
ghost use Rattle.regex_hir.specs.Meaning.{meaning};
ghost use Rattle.regex_meta.specs.Programs.{pattern_of};
ghost use Rattle.kl_exclude.specs.Inner.Joined.{joined, AnswersFor, StandsFor};

use crate::pattern::Pattern;
use kl_base::Memory;
use regex_compile::Error;
use regex_hir::{Hir, Look};
use regex_meta::Program;
use regex_syntax::{Config, ErrorKind, Parsed};
use std::alloc::Global;

/// How many bytes a program of many patterns may take, as much as `regex` gives to one.
const SIZE_LIMIT: usize = 10 << 20;

/// One program for all patterns, which has a match exactly where one of them excludes the path. `None` where it would
/// be too large.
pub(crate) fn join(alloc: Global, patterns: &[Pattern]) -> Result<Option<Program>, Memory>
    ensures { IfOk result (λ o. IfSome o (λ p. AnswersFor patterns.now (pattern_of p))) }
{
    let mut trees = Vec::with_capacity(alloc, patterns.len())?;
    let mut groups: u32 = 1;
    for pattern in patterns {
        let Some(Parsed { hir, names }) = parse(alloc, pattern.text())? else {
            return Ok(None);
        };
        let Ok(count) = u32::try_from(names.len()) else {
            return Ok(None);
        };
        groups = groups.max(count);
        trees.push(hir)?;
    }
    let program = program_of(alloc, trees, groups)?;
    Ok(program)
}

/// The tree of a pattern's text, or `None` where it is no pattern.
fn parse(alloc: Global, text: &str) -> Result<Option<Parsed>, Memory>
    ensures { IfOk result (λ o. IfSome o (λ p. StandsFor text.now (meaning p.hir))) }
{
    match regex_syntax::parse(alloc, text, &Config::default()) {
        Ok(parsed) => Ok(Some(parsed)),
        Err(error) => match error.kind {
            ErrorKind::OutOfMemory => Err(Memory),
            _ => Ok(None),
        },
    }
}

/// The program of `^(?:a|b|..)`, or `None` where it would be too large.
fn program_of(alloc: Global, trees: Vec<Hir>, groups: u32) -> Result<Option<Program>, Memory>
    ensures { IfOk result (λ o. IfSome o (λ p. pattern_of p ≡ joined (map meaning trees.items))) }
{
    let mut parts = Vec::with_capacity(alloc, 2)?;
    parts.push(Hir::Look(Look::Start))?;
    parts.push(Hir::Alternation(trees))?;
    match Program::new(alloc, Hir::Concat(parts), groups, SIZE_LIMIT) {
        Ok(program) => Ok(Some(program)),
        Err(Error::OutOfMemory) => Err(Memory),
        Err(_) => Ok(None),
    }
}
