//! The program's top call.
#![tactic(auto)]

mod answering;
mod complete;
mod ending;
mod line_reader;
mod printing;
mod program;
mod turns;
mod unique;

pub use complete::complete_runs;
pub use program::{is_only_word, run, run_counted, run_kept};
pub use unique::one_output;
