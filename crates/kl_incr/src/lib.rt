//! The appraisal of one poll, from a ticket that a verifier gave to what it records.
//!
//! A [`Ticket`] is the right to close a poll; it has all that the appraisal needs, so that no shared object is
//! looked at meanwhile. An [`Appraised`] is a ticket with the reply's evidence and what the rules say of it.
#![tactic(auto)]

mod appraised;
mod polling;
mod sharing;
mod ticket;

pub use appraised::{Appraised, Parts};
pub use kl_appraise::{Kept, Outcome};
pub use polling::appraise_from;
pub use ticket::Ticket;
