//! The digest of a message that comes in pieces.
ghost use Rattle.std.specs.Prelude.{◌≡◌, ℕ, List, [], ◌++◌, length};
ghost use Rattle.kl_bank.specs.declared.bank.Bank.{Bank};
ghost use Rattle.kl_bank.specs.Banks.{hash_of, size_of};
ghost use Rattle.kl_bank.specs.Hashing.{Holds};

use crate::{Bank, Digest};
use sha1::Sha1;
use sha2::{Digest as _, Sha256, Sha384};

/// A digest in the making: it takes in a message piece by piece.
#[derive(Drop)]
pub struct Hasher {
    state: State,
}

#[derive(Drop)]
enum State {
    Sha1(Sha1),
    Sha256(Sha256),
    Sha384(Sha384),
}

impl Hasher {
    /// A hasher of the bank that has taken in nothing.
    pub fn new(bank: Bank) -> Hasher
        ensures { Holds result bank [] }
    {
        let state = match bank {
            Bank::Sha1 => State::Sha1(Sha1::new()),
            Bank::Sha256 => State::Sha256(Sha256::new()),
            Bank::Sha384 => State::Sha384(Sha384::new()),
        };
        Hasher { state }
    }

    /// Takes in the next bytes of the message.
    pub fn update(&mut self, bytes: &[u8])
        ensures { (bank : Bank) (message : List ℕ) → Holds self.old bank message → Holds self.new bank (message ++ bytes.now) }
    {
        match &mut self.state {
            State::Sha1(hasher) => hasher.update(bytes),
            State::Sha256(hasher) => hasher.update(bytes),
            State::Sha384(hasher) => hasher.update(bytes),
        }
    }

    /// The digest of all that was taken in.
    pub fn finish(self) -> Digest
        ensures value { (bank : Bank) (message : List ℕ) → Holds self bank message → result ≡ hash_of bank message }
        ensures sized { (bank : Bank) (message : List ℕ) → Holds self bank message → length result ≡ size_of bank }
    {
        match self.state {
            State::Sha1(hasher) => Digest::of(&hasher.finalize()),
            State::Sha256(hasher) => Digest::of(&hasher.finalize()),
            State::Sha384(hasher) => Digest::of(&hasher.finalize()),
        }
    }
}
