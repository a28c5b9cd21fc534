//! Keys in memory.

ghost use Rattle.std.specs.Prelude.{◌≡◌, ◌↔◌, IfOk, IsErr, IsErrOf, IsTrue, Some, None};
ghost use Rattle.kl_io.specs.Calls.{Counts};
ghost use Rattle.kl_io.specs.Memory.{IsListed, new_script};
ghost use Rattle.kl_keys.specs.Hmac.{hmac256_of};
ghost use Rattle.kl_keys.specs.Mac.{mac_credential, mac_relations, mac_sealed};
ghost use Rattle.kl_keys.specs.Relations.{Answers, Recovers};
ghost use Rattle.kl_keys.specs.Told.{new_keys};

use crate::fault::{KeysError, KeysFault};
use crate::hmac::hmac256;
use crate::keys::Keys;
use crate::sealing::{seal, unseal};
use kl_base::Memory;
use kl_io::Script;
use std::alloc::Global;
use std::marker::Model;

/// Keys in memory, for tests alone: all is made of a key's bytes by HMAC-SHA-256, so who can verify can sign too, and
/// who can seal can unseal.
///
/// - A signature is the value of the message under the key.
/// - A sealed secret is the secret xor the value of `seal` under the public key, followed by the value of these 32
///   bytes under the public key.
/// - A credential blob is the secret sealed so, under the value of the attestation key under the endorsement key.
#[derive(Drop)]
pub struct MacKeys {
    script: Script,
}

impl Model for MacKeys {
    ghost use Rattle.kl_io.specs.Memory.{ScriptState};

    ghost Value = { ScriptState };

    ghost view = { λ k. k.script };
}

impl MacKeys {
    /// Keys whose calls with these numbers fail. All calls but `faults` are numbered together, from 1.
    ///
    /// # Errors
    /// [`Memory`] where there is none for the list of numbers.
    pub fn new(alloc: Global, faults: &[u64]) -> Result<MacKeys, Memory>
        ensures state { IfOk result (λ k. k ≡ new_script faults.now) }

        // As `Keys` it tells the relations of HMAC-SHA-256, no call, and not what it is asked.
        ensures tells { IfOk result (λ k. ⟦<MacKeys as Keys>⟧.told k ≡ new_keys mac_relations) }
    {
        Ok(MacKeys {
            script: Script::new(alloc, faults)?,
        })
    }
}

impl Keys for MacKeys {
    ghost told = { λ k. record { relations = Some mac_relations; calls = k.calls; log = None } };

    fn faults(&self) -> u64 {
        self.script.faults()
    }

    fn verify(&mut self, key: &[u8], message: &[u8], signature: &[u8]) -> Result<bool, KeysFault>
        ensures fails { IsErr result ↔ IsListed self.old }
        ensures yes { IfOk result (λ yes. IsTrue yes ↔ (signature.now ≡ hmac256_of key.now message.now)) }
        ensures answer { IfOk result (λ yes. Answers (Some mac_relations) key.now message.now signature.now yes) }
        ensures counted { Counts self.old.calls self.new.calls (IsErr result) }
        ensures listed { self.new.fails ≡ self.old.fails }
    {
        self.script.turn()?;
        Ok(signature == hmac256(key, message).as_slice())
    }

    fn sign(&mut self, alloc: Global, key: &[u8], message: &[u8]) -> Result<Vec<u8>, KeysError>
        ensures fails { IsErrOf result KeysError.Fault ↔ IsListed self.old }
        ensures answer { IfOk result (λ signature. signature.items ≡ hmac256_of key.now message.now) }
        ensures counted { Counts self.old.calls self.new.calls (IsErrOf result KeysError.Fault) }
        ensures listed { self.new.fails ≡ self.old.fails }
    {
        self.script.turn()?;
        Ok(Vec::from_slice(alloc, &hmac256(key, message))?)
    }

    fn seal(
        &mut self,
        alloc: Global,
        public: &[u8],
        secret: &[u8; 32],
    ) -> Result<Vec<u8>, KeysError>
        ensures fails { IsErrOf result KeysError.Fault ↔ IsListed self.old }
        ensures answer { IfOk result (λ sealed. sealed.items ≡ mac_sealed public.now secret.now) }
        ensures counted { Counts self.old.calls self.new.calls (IsErrOf result KeysError.Fault) }
        ensures listed { self.new.fails ≡ self.old.fails }
    {
        self.script.turn()?;
        Ok(seal(alloc, public, secret)?)
    }

    fn unseal(&mut self, public: &[u8], sealed: &[u8]) -> Result<Option<[u8; 32]>, KeysFault>
        ensures fails { IsErr result ↔ IsListed self.old }
        ensures answer { IfOk result (Recovers (mac_sealed public.now) sealed.now) }
        ensures counted { Counts self.old.calls self.new.calls (IsErr result) }
        ensures listed { self.new.fails ≡ self.old.fails }
    {
        self.script.turn()?;
        Ok(unseal(public, sealed))
    }

    fn credential(
        &mut self,
        alloc: Global,
        ek: &[u8],
        ak: &[u8],
        secret: &[u8; 32],
    ) -> Result<Vec<u8>, KeysError>
        ensures fails { IsErrOf result KeysError.Fault ↔ IsListed self.old }
        ensures answer { IfOk result (λ blob. blob.items ≡ mac_credential ek.now ak.now secret.now) }
        ensures counted { Counts self.old.calls self.new.calls (IsErrOf result KeysError.Fault) }
        ensures listed { self.new.fails ≡ self.old.fails }
    {
        self.script.turn()?;
        Ok(seal(alloc, &hmac256(ek, ak), secret)?)
    }

    fn activate(&mut self, ek: &[u8], ak: &[u8], blob: &[u8]) -> Result<Option<[u8; 32]>, KeysFault>
        ensures fails { IsErr result ↔ IsListed self.old }
        ensures answer { IfOk result (Recovers (mac_credential ek.now ak.now) blob.now) }
        ensures counted { Counts self.old.calls self.new.calls (IsErr result) }
        ensures listed { self.new.fails ≡ self.old.fails }
    {
        self.script.turn()?;
        Ok(unseal(&hmac256(ek, ak), blob))
    }
}
