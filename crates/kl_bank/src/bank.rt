//! The banks, and what is done in each.
ghost use Rattle.std.specs.Prelude.{◌≡◌, ◌≢◌, ◌+◌, ◌≤◌, ◌++◌, Some, length, take, IfNone, IfSome};
ghost use Rattle.kl_bank.specs.declared.bank.Bank.{Bank};
ghost use Rattle.kl_bank.specs.Banks.{alg_of, extended, hash_of, name_of, ones_of, size_of, zeros_of};

use crate::Digest;
use sha1::Sha1;
use sha2::{Digest as _, Sha256, Sha384};
use std::fmt;

/// A PCR bank, which is named by its hash algorithm.
#[derive(Clone, Copy, Debug, PartialEq, Eq)]
pub enum Bank {
    Sha1,
    Sha256,
    Sha384,
}

impl Bank {
    /// The bank of a TPM_ALG_ID (TPM 2.0 Library, Part 2, section 6.3), if it is that of a bank here.
    pub fn from_alg(id: u16) -> Option<Bank>
        ensures found { IfSome result (λ bank. id ≡ alg_of bank) }
        ensures none { IfNone result ((bank : Bank) → id ≢ alg_of bank) }
    {
        match id {
            0x0004 => Some(Bank::Sha1),
            0x000B => Some(Bank::Sha256),
            0x000C => Some(Bank::Sha384),
            _ => None,
        }
    }

    /// The bank of the name `sha1`, `sha256` or `sha384`.
    pub fn from_name(name: &str) -> Option<Bank>
        ensures found { IfSome result (λ bank. name.now ≡ name_of bank) }
        ensures none { IfNone result ((bank : Bank) → name.now ≢ name_of bank) }
    {
        match name {
            "sha1" => Some(Bank::Sha1),
            "sha256" => Some(Bank::Sha256),
            "sha384" => Some(Bank::Sha384),
            _ => None,
        }
    }

    /// Its TPM_ALG_ID.
    pub fn alg(self) -> u16
        ensures { result ≡ alg_of self }
    {
        match self {
            Bank::Sha1 => 0x0004,
            Bank::Sha256 => 0x000B,
            Bank::Sha384 => 0x000C,
        }
    }

    /// Its name in texts.
    pub fn name(self) -> &'static str
        ensures { result.now ≡ name_of self }
    {
        match self {
            Bank::Sha1 => "sha1",
            Bank::Sha256 => "sha256",
            Bank::Sha384 => "sha384",
        }
    }

    /// How many bytes its digests have.
    pub fn size(self) -> usize
        ensures { result ≡ size_of self }
    {
        match self {
            Bank::Sha1 => 20,
            Bank::Sha256 => 32,
            Bank::Sha384 => 48,
        }
    }

    /// The digest whose bytes are all zero: a PCR after a reset.
    pub fn zeros(self) -> Digest
        ensures value { result ≡ zeros_of self }
        ensures sized { length result ≡ size_of self }
    {
        Digest::of(&[0; 48][..self.size()])
    }

    /// The digest whose bytes are all 0xFF: what a PCR is extended by for what Linux IMA calls a violation,
    /// a file that could change while it was measured.
    pub fn ones(self) -> Digest
        ensures value { result ≡ ones_of self }
        ensures sized { length result ≡ size_of self }
    {
        Digest::of(&[0xFF; 48][..self.size()])
    }

    /// These bytes as a digest of the bank, if there are as many as its digests have.
    pub fn digest(self, bytes: &[u8]) -> Option<Digest>
        ensures sized { IfSome result (λ digest. length digest ≡ size_of self) }
        ensures value { IfSome result (λ digest. digest ≡ bytes.now) }
        ensures none { IfNone result (length bytes.now ≢ size_of self) }
    {
        if bytes.len() == self.size() {
            Some(Digest::of(bytes))
        } else {
            None
        }
    }

    /// The digest of these bytes.
    pub fn hash(self, bytes: &[u8]) -> Digest
        ensures value { result ≡ hash_of self bytes.now }
        ensures sized { length result ≡ size_of self }
    {
        match self {
            Bank::Sha1 => Digest::of(&Sha1::digest(bytes)),
            Bank::Sha256 => Digest::of(&Sha256::digest(bytes)),
            Bank::Sha384 => Digest::of(&Sha384::digest(bytes)),
        }
    }

    /// The value of a PCR that held `old` and was extended by `with`.
    pub fn extend(self, old: &Digest, with: &Digest) -> Digest
        requires old { length old.now ≡ size_of self }
        requires with { length with.now ≡ size_of self }
        ensures value { result ≡ extended self old.now with.now }
        ensures sized { length result ≡ size_of self }
    {
        let mut both = [0; 96];
        lay(&mut both, old.as_slice(), with.as_slice());
        self.hash(&both[..2 * self.size()])
    }
}

/// Lays `front` and then `back` at the beginning of `space`.
fn lay(space: &mut [u8], front: &[u8], back: &[u8])
    requires { length front.now + length back.now ≤ length space.old }
    ensures { take (length front.now + length back.now) space.new ≡ front.now ++ back.now }
{
    let seam = front.len();
    let end = seam + back.len();
    space[..seam].copy_from_slice(front);
    space[seam..end].copy_from_slice(back);
}

/// Its name.
impl fmt::Display for Bank {
    ghost output = { λ bank. Some (name_of bank) };

    fn fmt<W: fmt::Write>(&self, f: &mut fmt::Formatter<W>) -> fmt::Result {
        f.write_str(self.name())
    }
}
