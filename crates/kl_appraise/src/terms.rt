//! What an agent is appraised under.

mod changed;

ghost use Rattle.std.specs.Prelude.{◌≡◌, IfOk, IsErrOf, IsTrue, ◌↔◌, string_bytes};
ghost use Rattle.kl_pcr.specs.Statics.{AreStatics};
ghost use Rattle.kl_appraise.specs.Terms.{AreTerms, IsMask};

use crate::fault::TermsFault;
use kl_bank::Bank;
use kl_pcr::{Static, Statics, statics_ok};
use kl_policy::Policy;
use kl_states::{Blob, Text};
use std::marker::Model;

/// What an agent is appraised under: where it is reached, what its quotes cover, the key that signs
/// them, and which state is allowed.
///
/// The mask of quoted PCRs has PCR 10, where the measurement list is extended, and PCR 16, where the
/// agent's key is bound, and no PCR above 23.
#[derive(Drop)]
pub struct Terms {
    contact: Text,
    bank: Bank,
    mask: u32,
    statics: Statics,
    ak: Blob,
    v: Option<[u8; 32]>,
    policy: Policy,
}

impl Model for Terms {
    ghost use Rattle.std.specs.Coded.{codes};
    ghost use Rattle.kl_digests.specs.Digests.{digest_map_code};
    ghost use Rattle.kl_appraise.specs.Terms.{TermsFields, AreTerms};

    ghost Value = { TermsFields };

    ghost coded = { Prim.hlevel (codes, digest_map_code) };

    ghost use Rattle.kl_appraise.specs.Inner.TermsView.{fields_of};

    ghost view = { fields_of };

    ghost invariant = { λ t. AreTerms (fields_of t) };
}

impl Terms {
    /// The terms of these fields.
    ///
    /// # Errors
    ///
    /// `Mask` where the mask lacks PCR 10 or PCR 16, or has a PCR above 23; else `Static` where
    /// [`statics_ok`] says no to the static PCRs.
    pub fn new(
        contact: String,
        bank: Bank,
        mask: u32,
        statics: Vec<Static>,
        ak: Vec<u8>,
        v: Option<[u8; 32]>,
        policy: Policy,
    ) -> Result<Terms, TermsFault>
        ensures fields { IfOk result (λ t. t ≡ record {
          contact = string_bytes contact;
          bank = bank;
          mask = mask;
          statics = statics.items;
          ak = ak.items;
          v = v;
          policy = policy;
        }) }
        ensures good { IfOk result (λ t. AreTerms t) }
        ensures mask { IsErrOf result TermsFault.Mask → ¬ (IsMask mask) }
        ensures statics_mask { IsErrOf result TermsFault.Static → IsMask mask }
        ensures statics { IsErrOf result TermsFault.Static → ¬ (AreStatics bank mask statics.items) }
    {
        if !is_mask(mask) {
            return Err(TermsFault::Mask);
        }
        if !statics_ok(bank, mask, &statics) {
            return Err(TermsFault::Static);
        }
        Ok(Terms {
            contact: Text::new(contact),
            bank,
            mask,
            statics: Statics::new(statics),
            ak: Blob::new(ak),
            v,
            policy,
        })
    }

    /// Where the agent is reached.
    pub fn contact(&self) -> &str
        ensures { result.now ≡ self.now.contact }
    {
        self.contact.as_str()
    }

    /// The bank of PCRs that it quotes.
    pub fn bank(&self) -> Bank
        ensures { result ≡ self.now.bank }
    {
        self.bank
    }

    /// The PCRs that it quotes, as the sum of 2^n for each PCR n.
    pub fn mask(&self) -> u32
        ensures value { result ≡ self.now.mask }
        ensures form { IsMask self.now.mask }
    {
        self.mask
    }

    /// The PCRs that have fixed values, and what each may be.
    pub fn statics(&self) -> &[Static]
        ensures value { result.now ≡ self.now.statics }
        ensures form { AreStatics self.now.bank self.now.mask self.now.statics }
    {
        self.statics.as_slice()
    }

    /// The attestation key that signs its quotes.
    pub fn ak(&self) -> &[u8]
        ensures { result.now ≡ self.now.ak }
    {
        self.ak.as_slice()
    }

    /// The key share that is released to it once it passes, where there is one.
    pub fn v(&self) -> Option<[u8; 32]>
        ensures { result ≡ self.now.v }
    {
        self.v
    }

    /// Which entries of its measurement list are allowed.
    pub fn policy(&self) -> &Policy
        ensures { result.now ≡ self.now.policy }
    {
        &self.policy
    }
}

/// Whether a mask has PCR 10 and PCR 16, and no PCR above 23.
fn is_mask(mask: u32) -> bool
    ensures { IsTrue result ↔ IsMask mask }
{
    mask < 1 << 24 && (mask >> 10) & 1 == 1 && (mask >> 16) & 1 == 1
}
