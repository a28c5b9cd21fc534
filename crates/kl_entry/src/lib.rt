//! The entries of a Linux IMA measurement list in the template `ima-ng`: what they mean, and how
//! they are read from lines and written as lines.
//!
//! The format is the kernel's (Documentation/security/IMA-templates), as
//! `/sys/kernel/security/ima/ascii_runtime_measurements` shows it.
#![tactic(auto)]

mod digits;
mod entry;
mod entry_data;
mod fault;
mod file_digest;
mod line_iterator;
mod listing;
mod meaning;
mod reading;
mod sharing;
mod writing;

pub use entry::Entry;
pub use entry_data::EntryData;
pub use fault::LineFault;
pub use file_digest::FileDigest;
pub use kl_base::Memory;
pub use line_iterator::Lines;
pub use listing::lines;
pub use meaning::{consistent, consistent_with, violation};
pub use reading::read_entry;
pub use writing::write_entry;
