//! The exclude patterns of a runtime policy: which paths are not asked for a digest.
//!
//! A pattern is a text that `regex` reads, and a path is excluded exactly where the leftmost match of some pattern begins
//! at its byte 0, as Python's `re.match` has it. [`compile`] makes patterns of texts by a [`PatternMaker`], which may refuse
//! one as too large. [`Patterns`] searches for all of them at once, where that can be had.
#![tactic(auto)]

mod apart;
mod compiling;
mod fault;
mod front_searcher;
mod maker;
mod mem_maker;
mod path_searcher;
mod pattern;
mod pattern_searcher;
mod patterns;
mod program;
mod std_maker;
mod threads;

pub use compiling::compile;
pub use fault::{ExcludeFault, PatternFault};
pub use kl_base::Memory;
pub use maker::PatternMaker;
pub use mem_maker::MemMaker;
pub use path_searcher::{PathSearcher, excluded};
pub use pattern::Pattern;
pub use patterns::Patterns;
pub use std_maker::StdMaker;
