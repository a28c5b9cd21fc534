//! The text of a TPM quote, and the evidence that an agent answers with.
#![tactic(auto)]

mod evidence;
mod quote;

pub use evidence::{EVIDENCE_LIMIT, Evidence};
pub use kl_base::Memory;
pub use quote::{Quote, QuoteFault, read_quote, write_quote};
