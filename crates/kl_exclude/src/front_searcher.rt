//! A search that begins at byte 0 alone.

ghost use Rattle.std.specs.Prelude.{◌≡◌, is_some, IfOk};
ghost use Rattle.regex_hir.specs.Meaning.{meaning};
ghost use Rattle.regex_hir.specs.Re.{accept, attempt};

use kl_base::Memory;
use regex_dfa::{End, Forward};
use regex_meta::Program;
use regex_vm::PikeVm;
use std::alloc::Global;
use std::marker::Model;

/// So many paths are searched by the NFA before the automaton is used.
const EARLY_PATHS: u32 = 16;

/// The most bytes that one of them has.
const EARLY_BYTES: usize = 256;

/// A search of many paths for a match of one program that begins at byte 0. A contract sees the program's tree.
///
/// `regex_meta::Searcher` looks for matches anywhere, and makes memory for six engines. Here the NFA itself runs on the
/// first paths, most of which part from all patterns soon: an automaton's states are worth what they cost once they are met
/// again. Then one automaton answers, and the NFA again where that gives up.
#[derive(Drop)]
pub(crate) struct FrontSearcher<'a> {
    program: &'a Program,
    automaton: Forward,
    /// Made in `new`, as the automaton is, since `begins` has no error to return.
    engine: PikeVm,
    /// How many paths more the NFA is run on first.
    early: u32,
}

impl<'a> Model for FrontSearcher<'a> {
    ghost use Rattle.std.specs.Coded.{codes};
    ghost use Rattle.std.specs.Prelude.{◌≡◌, vec_len};
    ghost use Rattle.regex_dfa.specs.Search.{IsForwardFor};
    ghost use Rattle.regex_hir.specs.contracts.hir.Hir as tree;
    ghost use Rattle.regex_hir.specs.declared.hir.Hir.{Hir};

    ghost Value = { Hir };

    ghost coded = { Prim.hlevel (codes, tree.the_row.coded) };

    ghost view = { λ s. s.program.now.hir };

    ghost invariant = { λ s. IsForwardFor s.automaton s.program.now.dfa
        × (s.engine.states ≡ vec_len s.program.now.dfa.nfa.states) };
}

impl<'a> FrontSearcher<'a> {
    /// A search by this program.
    ///
    /// # Errors
    /// [`Memory`] where there is none for the engines.
    pub(crate) fn new(alloc: Global, program: &'a Program) -> Result<FrontSearcher<'a>, Memory>
        ensures { IfOk result (λ s. s ≡ program.now.hir) }
    {
        let automaton = Forward::new(alloc, &program.dfa, false)?;
        let engine = PikeVm::new(alloc, &program.dfa.nfa)?;
        Ok(FrontSearcher {
            program,
            automaton,
            engine,
            early: EARLY_PATHS,
        })
    }

    /// Whether the program has a match that begins at byte 0 of the path. No want of memory stops it: where the automaton
    /// can't grow, or rests since it grew too often, the NFA answers.
    pub(crate) fn begins(&mut self, path: &str) -> bool
        ensures found { result ≡ is_some (attempt path.now (meaning self.old) accept 0) }
        ensures same { self.new ≡ self.old }
    {
        if self.early > 0 && path.len() <= EARLY_BYTES {
            self.early -= 1;
            return self.runs(path);
        }
        let dfa = &self.program.dfa;
        let bytes = path.as_bytes();
        // Anchored at 0, and done with the first end of a match, be it the preferred one or not.
        match self
            .automaton
            .find_end(dfa, bytes, 0, bytes.len(), true, true)
        {
            End::At(_) => true,
            End::NoMatch => false,
            End::Idle(_) | End::GaveUp => self.runs(path),
        }
    }

    /// The same, by the NFA.
    fn runs(&mut self, path: &str) -> bool
        ensures found { result ≡ is_some (attempt path.now (meaning self.old) accept 0) }
        ensures same { self.new ≡ self.old }
    {
        let bytes = path.as_bytes();
        self.engine
            .is_match(&self.program.dfa.nfa, bytes, 0, 0, bytes.len())
    }
}
