//! The core of a verifier: one history, and the calls that add to it.
//!
//! [`Desk`] is what agents are installed and polled at.
#![tactic(auto)]

mod answers;
mod book;
mod book_desk;
mod closed;
mod closing;
mod desk;
mod refusal;
mod settlement;
mod share;

pub use answers::single_answers;
pub use book::Book;
pub use closed::{Closed, ClosedAs};
pub use desk::Desk;
pub use kl_history::{InstallWhy, Record};
pub use kl_incr::{Appraised, Kept, Outcome as Finding, Parts, Ticket};
pub use kl_notice::{FailWhy, Notice};
pub use refusal::Refusal;
pub use settlement::Settlement;
pub use share::Share;
