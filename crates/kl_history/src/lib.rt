//! The history of a verifier: one list of records, what it says of each agent, poll and release, which
//! histories are legal, and what holds of every legal one.
//!
//! The definitions look back over the list; nothing in them counts along or keeps a table.
#![tactic(auto)]

mod laws;
mod record;
mod sharing;
mod worked;

pub use laws::{
    drawn_numbers, each_beginning, looked_back, new_beginnings, open_counts, recorded_verdicts,
    released_once, released_shares, single_ends, single_standing, stale_records, told_failures,
};
pub use record::{InstallWhy, Record};
pub use worked::{worked_agents, worked_deliveries, worked_ends, worked_lists, worked_polls};
