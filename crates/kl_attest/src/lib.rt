//! A quote as a TPM signs it: the structure TPMS_ATTEST of the TPM 2.0 Library, Part 2, read and
//! written exactly.
#![tactic(auto)]

mod attest;
mod cursor;
mod fault;
mod reading;
mod selections;
mod writing;

pub use attest::{Attest, AttestParts};
pub use fault::AttestFault;
pub use kl_base::Memory;
pub use reading::read_attest;
pub use selections::Selections;
pub use writing::write_attest;
