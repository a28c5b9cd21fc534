//! The appraisal of an agent's evidence: the verdict on a quote, on the PCR values that it covers, and on the
//! measurement list of the machine since it booted.
#![tactic(auto)]

mod fault;
mod genuine;
mod identity;
mod judged;
mod judging;
mod kept;
mod listed;
mod onto;
mod quoted;
mod replayed;
mod shared_terms;
mod sharing;
mod terms;
mod unique;
mod whole;

pub use fault::{AppraiseError, TermsFault};
pub use genuine::genuine_passes;
pub use identity::check_identity;
pub use judged::{Boot, Judged, Outcome};
pub use kept::{Found, Kept};
pub use onto::appraise_onto;
pub use shared_terms::SharedTerms;
pub use terms::Terms;
pub use unique::one_verdict;
pub use whole::appraise_whole;
