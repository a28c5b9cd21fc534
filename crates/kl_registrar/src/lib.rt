//! The registrar: which agents have registered their keys, and which of them showed that the two keys are of one TPM.
//!
//! An agent registers an endorsement key and an attestation key and is answered a credential blob, whose secret only
//! the TPM that has both can read. Its record is active once it gave the tag under that secret.
#![tactic(auto)]

mod fault;
mod record;
mod registrar;
mod theorem;
mod threads;

pub use fault::RegFault;
pub use kl_base::Memory;
pub use record::RegRecord;
pub use registrar::Registrar;
pub use theorem::{one_activation, one_count, one_registration};
