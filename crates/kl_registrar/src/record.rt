//! What is kept of an agent.

ghost use Rattle.std.specs.Prelude.{◌≡◌, ◌↔◌, IfOk, IsTrue, false};
ghost use Rattle.kl_keys.specs.Tags.{SpellsTag};
ghost use Rattle.kl_registrar.specs.Calls.{registration};
ghost use Rattle.kl_registrar.specs.Records.{told_of};

use kl_base::Memory;
use kl_keys::tag_matches;
use kl_states::{AgentId, Blob, Text};
use std::alloc::Global;

/// What an agent registered, and whether it gave the tag since.
#[derive(Debug, Drop)]
pub struct RegRecord {
    /// The endorsement key of its TPM.
    pub ek: Blob,
    /// The attestation key, which signs its quotes.
    pub ak: Blob,
    /// Where it is reached.
    pub contact: Text,
    /// The secret of its blob.
    pub secret: [u8; 32],
    /// Whether it gave the tag under the secret.
    pub active: bool,
}

impl RegRecord {
    /// A record that is not active.
    pub(crate) fn new(
        alloc: Global,
        ek: &[u8],
        ak: &[u8],
        contact: &str,
        secret: [u8; 32],
    ) -> Result<RegRecord, Memory>
        ensures told { IfOk result
            (λ made. told_of made ≡ registration ek.now ak.now contact.now secret) }
        ensures inactive { IfOk result (λ made. made.active ≡ false) }
    {
        Ok(RegRecord {
            ek: Blob::new(Vec::from_slice(alloc, ek)?),
            ak: Blob::new(Vec::from_slice(alloc, ak)?),
            contact: Text::new(String::from_str(alloc, contact)?),
            secret,
            active: false,
        })
    }

    /// Whether the text is the agent's tag under the secret, in hexadecimal digits of either case.
    pub(crate) fn is_tag(&self, id: &AgentId, text: &str) -> bool
        ensures { IsTrue result ↔ SpellsTag self.now.secret id.now text.now }
    {
        tag_matches(&self.secret, id, text)
    }
}
