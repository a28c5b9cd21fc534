//! What the verifier asks of keys.

ghost use Rattle.std.specs.Prelude.{◌≡◌, IfOk, IsErr, IsErrOf};
ghost use Rattle.std.specs.Option.{option_map};
ghost use Rattle.std.specs.Result.{result_ok};
ghost use Rattle.kl_io.specs.Calls.{Counts};
ghost use Rattle.kl_keys.specs.Relations.{Answers, AnswersSign, AnswersSeal, AnswersUnseal, AnswersCredential, AnswersActivate};
ghost use Rattle.kl_keys.specs.Told.{KeysTold, Logs, Verified, Signed, Sealed, Unsealed, Credential, Activated};

use crate::fault::{KeysError, KeysFault};
use std::alloc::Global;

/// Keys that are asked by their bytes. The relations that they tell are fixed: a key says the same of the same
/// message at each call.
pub trait Keys {
    /// What they tell: the relations that the answers follow, what they counted, and all that they were asked.
    ghost told: { Self → KeysTold };

    /// How many calls have met a fault, up to `u64::MAX`.
    fn faults(&self) -> u64
        ensures { result ≡ (told self.now).calls.faults };

    /// Whether the signature is the key's, of this message.
    ///
    /// # Errors
    /// [`KeysFault`] where the keys met a fault in this call.
    fn verify(&mut self, key: &[u8], message: &[u8], signature: &[u8]) -> Result<bool, KeysFault>
        ensures answer { IfOk result
            (λ yes. Answers (told self.old).relations key.now message.now signature.now yes) }
        ensures told { (told self.new).relations ≡ (told self.old).relations }
        ensures counted { Counts (told self.old).calls (told self.new).calls (IsErr result) }
        ensures logged { Logs (told self.old).log (told self.new).log
            (Verified key.now message.now signature.now (result_ok result)) };

    /// The key's signature of this message.
    ///
    /// # Errors
    /// [`KeysError::Fault`] where the keys met a fault in this call, [`KeysError::Memory`] where there is no
    /// memory for the signature.
    fn sign(&mut self, alloc: Global, key: &[u8], message: &[u8]) -> Result<Vec<u8>, KeysError>
        ensures answer { IfOk result
            (λ signature. AnswersSign (told self.old).relations key.now message.now signature.items) }
        ensures told { (told self.new).relations ≡ (told self.old).relations }
        // Want of memory is no fault.
        ensures counted { Counts (told self.old).calls (told self.new).calls (IsErrOf result KeysError.Fault) }
        ensures logged { Logs (told self.old).log (told self.new).log
            (Signed key.now message.now (option_map (λ signature. signature.items) (result_ok result))) };

    /// The secret sealed, so that the owner of this public key alone can read it.
    ///
    /// # Errors
    /// [`KeysError::Fault`] where the keys met a fault in this call, [`KeysError::Memory`] where there is no
    /// memory for the sealed bytes.
    fn seal(
        &mut self,
        alloc: Global,
        public: &[u8],
        secret: &[u8; 32],
    ) -> Result<Vec<u8>, KeysError>
        ensures answer { IfOk result
            (λ sealed. AnswersSeal (told self.old).relations public.now secret.now sealed.items) }
        ensures told { (told self.new).relations ≡ (told self.old).relations }
        ensures counted { Counts (told self.old).calls (told self.new).calls (IsErrOf result KeysError.Fault) }
        ensures logged { Logs (told self.old).log (told self.new).log
            (Sealed public.now secret.now (option_map (λ sealed. sealed.items) (result_ok result))) };

    /// The secret that was sealed for this public key, or None where the bytes are no sealed secret of it.
    ///
    /// # Errors
    /// [`KeysFault`] where the keys met a fault in this call.
    fn unseal(&mut self, public: &[u8], sealed: &[u8]) -> Result<Option<[u8; 32]>, KeysFault>
        ensures answer { IfOk result
            (λ secret. AnswersUnseal (told self.old).relations public.now sealed.now secret) }
        ensures told { (told self.new).relations ≡ (told self.old).relations }
        ensures counted { Counts (told self.old).calls (told self.new).calls (IsErr result) }
        ensures logged { Logs (told self.old).log (told self.new).log
            (Unsealed public.now sealed.now (result_ok result)) };

    /// The credential blob of a secret (TPM 2.0 Library, Part 1, section 24): only the TPM that has both the
    /// endorsement key `ek` and the attestation key `ak` can read the secret.
    ///
    /// # Errors
    /// [`KeysError::Fault`] where the keys met a fault in this call, [`KeysError::Memory`] where there is no
    /// memory for the blob.
    fn credential(
        &mut self,
        alloc: Global,
        ek: &[u8],
        ak: &[u8],
        secret: &[u8; 32],
    ) -> Result<Vec<u8>, KeysError>
        ensures answer { IfOk result
            (λ blob. AnswersCredential (told self.old).relations ek.now ak.now secret.now blob.items) }
        ensures told { (told self.new).relations ≡ (told self.old).relations }
        ensures counted { Counts (told self.old).calls (told self.new).calls (IsErrOf result KeysError.Fault) }
        ensures logged { Logs (told self.old).log (told self.new).log
            (Credential ek.now ak.now secret.now (option_map (λ blob. blob.items) (result_ok result))) };

    /// The secret of a credential blob for these two keys, or None where the bytes are no such blob.
    ///
    /// # Errors
    /// [`KeysFault`] where the keys met a fault in this call.
    fn activate(&mut self, ek: &[u8], ak: &[u8], blob: &[u8]) -> Result<Option<[u8; 32]>, KeysFault>
        ensures answer { IfOk result
            (λ secret. AnswersActivate (told self.old).relations ek.now ak.now blob.now secret) }
        ensures told { (told self.new).relations ≡ (told self.old).relations }
        ensures counted { Counts (told self.old).calls (told self.new).calls (IsErr result) }
        ensures logged { Logs (told self.old).log (told self.new).log
            (Activated ek.now ak.now blob.now (result_ok result)) };
}
