//! The values of platform configuration registers (PCRs): what a measurement list extends into them,
//! what a quote says of them, and which values are allowed.
#![tactic(auto)]

mod counting;
mod extending;
mod listed;
mod quoted;
mod statics;

pub use counting::Steps;
pub use extending::{binding, measured, measured_with, replay};
pub use listed::Listed;
pub use quoted::{pcr_digest, value};
pub use statics::{Digests, Static, Statics, first_wrong, statics_ok};
