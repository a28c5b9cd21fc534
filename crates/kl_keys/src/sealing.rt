//! How keys in memory seal a secret.

ghost use Rattle.std.specs.Prelude.{◌≡◌, ◌↔◌, IfOk, IsTrue};
ghost use Rattle.kl_keys.specs.Hmac.{hmac256_of};
ghost use Rattle.kl_keys.specs.Mac.{mac_sealed};
ghost use Rattle.kl_keys.specs.Relations.{Recovers};
ghost use Rattle.kl_keys.specs.Xor.{xor_of};

use crate::hmac::hmac256;
use std::alloc::{AllocError, Global};

const SECRET_LEN: usize = 32;

fn mask(bytes: &mut [u8; SECRET_LEN], pad: &[u8; SECRET_LEN])
    ensures { bytes.new ≡ xor_of bytes.old pad.now }
{
    for i in 0..SECRET_LEN {
        bytes[i] ^= pad[i];
    }
}

/// The secret xor a pad under the public key, and the HMAC-SHA-256 value of these bytes.
pub fn seal(alloc: Global, public: &[u8], secret: &[u8; SECRET_LEN]) -> Result<Vec<u8>, AllocError>
    ensures { IfOk result (λ sealed. sealed.items ≡ mac_sealed public.now secret.now) }
{
    let mut masked = *secret;
    mask(&mut masked, &hmac256(public, b"seal"));
    let mut sealed = Vec::from_slice(alloc, &masked)?;
    sealed.extend_from_slice(&hmac256(public, &masked))?;
    Ok(sealed)
}

fn has_value(public: &[u8], masked: &[u8], value: &[u8]) -> bool
    ensures { IsTrue result ↔ (value.now ≡ hmac256_of public.now masked.now) }
{
    value == hmac256(public, masked).as_slice()
}

/// The secret that was sealed under the public key, or None where the bytes are no such one.
pub fn unseal(public: &[u8], sealed: &[u8]) -> Option<[u8; SECRET_LEN]>
    ensures { Recovers (mac_sealed public.now) sealed.now result }
{
    if sealed.len() < SECRET_LEN {
        return None;
    }
    let (masked, value) = sealed.split_at(SECRET_LEN);
    if !has_value(public, masked, value) {
        return None;
    }
    let mut secret = [0; SECRET_LEN];
    secret.copy_from_slice(masked);
    mask(&mut secret, &hmac256(public, b"seal"));
    Some(secret)
}
