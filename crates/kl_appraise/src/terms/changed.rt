//! Terms compared, and with another policy.

ghost use Rattle.std.specs.Prelude.{◌≡◌, ◌↔◌, IfOk, IfErr, IsTrue};
ghost use Rattle.kl_appraise.specs.Terms.{TermsFields};

use super::Terms;
use kl_pcr::{Digests, Static, Statics};
use kl_policy::Policy;
use kl_states::{Blob, Text};
use std::alloc::{AllocError, Global};

impl Terms {
    /// These terms with another policy.
    ///
    /// # Errors
    /// Gives the policy back where there is no memory.
    pub fn with_policy(&self, alloc: Global, policy: Policy) -> Result<Terms, Policy>
        ensures ok { IfOk result (λ t. t ≡ record {
          contact = self.now.contact;
          bank = self.now.bank;
          mask = self.now.mask;
          statics = self.now.statics;
          ak = self.now.ak;
          v = self.now.v;
          policy = policy;
        }) }
        ensures err { IfErr result (λ back. back ≡ policy) }
    {
        match self.copied(alloc) {
            Ok((contact, ak, statics)) => Ok(Terms {
                contact,
                bank: self.bank,
                mask: self.mask,
                statics,
                ak,
                v: self.v,
                policy,
            }),
            Err(_) => Err(policy),
        }
    }

    /// The policy, taken out of the terms.
    pub fn into_policy(self) -> Policy
        ensures { result ≡ self.policy }
    {
        self.policy
    }

    /// Whether the other terms are equal: the policies are compared last.
    pub fn equals(&self, other: &Terms) -> bool
        ensures { IsTrue result ↔ (self.now ≡ other.now) }
    {
        self.bank == other.bank
            && self.mask == other.mask
            && self.v == other.v
            && self.contact.as_str() == other.contact.as_str()
            && self.ak.as_slice() == other.ak.as_slice()
            && same_statics(self.statics.as_slice(), other.statics.as_slice())
            && self.policy.equals(&other.policy)
    }

    fn copied(&self, alloc: Global) -> Result<(Text, Blob, Statics), AllocError>
        ensures contact { IfOk result (λ c. c.0 ≡ self.now.contact) }
        ensures ak { IfOk result (λ c. c.1 ≡ self.now.ak) }
        ensures statics { IfOk result (λ c. c.2 ≡ self.now.statics) }
    {
        let contact = String::from_str(alloc, self.contact.as_str())?;
        let ak = Vec::from_slice(alloc, self.ak.as_slice())?;
        let statics = copy_statics(alloc, self.statics.as_slice())?;
        Ok((Text::new(contact), Blob::new(ak), Statics::new(statics)))
    }
}

/// The same static PCRs once more.
fn copy_statics(alloc: Global, statics: &[Static]) -> Result<Vec<Static>, AllocError>
    ensures { IfOk result (λ copies. copies.items ≡ statics.now) }
{
    let mut copies = Vec::with_capacity(alloc, statics.len())?;
    for item in statics {
        let allowed = Vec::from_slice(alloc, item.allowed.as_slice())?;
        copies.push(Static {
            pcr: item.pcr,
            allowed: Digests::new(allowed),
        })?;
    }
    Ok(copies)
}

/// Whether static PCRs are the same.
fn same_statics(one: &[Static], other: &[Static]) -> bool
    ensures { IsTrue result ↔ (one.now ≡ other.now) }
{
    if one.len() != other.len() {
        return false;
    }
    for (i, item) in one.iter().enumerate() {
        if !same_static(item, &other[i]) {
            return false;
        }
    }
    true
}

fn same_static(one: &Static, other: &Static) -> bool
    ensures { IsTrue result ↔ (one.now ≡ other.now) }
{
    one.pcr == other.pcr && one.allowed.as_slice() == other.allowed.as_slice()
}
