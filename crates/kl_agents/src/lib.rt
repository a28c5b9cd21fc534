//! What is kept of installed agents, of polls that are open and of releases that are not settled, so that no call looks back over the
//! history.
//!
//! An [`Entry`] is what is kept of an agent: each event has a method that gives what is kept after it. The functions change one
//! agent, poll, release or boot in its map; [`first_due`] finds the agent that is polled next.
#![tactic(auto)]

mod agents;
mod entry;
mod failing;
mod kept_open;
mod picking;
mod reached;
mod settling;

pub use agents::{kept, kept_at, kept_if, note, note_if, op_now, put_fresh, renew, take_out};
pub use entry::{Begun, Entry, Handed, Opening, Passed};
pub use failing::post_if;
pub use kept_open::{put_one, take_one};
pub use picking::{Due, first_due};
pub use reached::{Target, is_marked, reserve_mark};
pub use settling::{arrival, mark_if, only_if, settle_why, settled_if};
