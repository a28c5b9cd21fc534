//! HMAC (RFC 2104) over SHA-256 and SHA-384.

ghost use Rattle.std.specs.Prelude.{◌≡◌, ◌≤◌, ◌++◌, length};
ghost use Rattle.kl_keys.specs.Hmac.{filled_to, masked_by, inner_pad, outer_pad, hmac256_of, hmac384_of};

use sha2::{Digest, Sha256, Sha384};
use std::convert::AsSlice;

const INNER_PAD: u8 = 0x36;

const OUTER_PAD: u8 = 0x5c;

const SHA256_BLOCK: usize = 64;

const SHA384_BLOCK: usize = 128;

// The bytes, and zeros up to a block.
fn filled<const BLOCK: usize>(bytes: &[u8]) -> [u8; BLOCK]
    requires { length bytes.now ≤ BLOCK }
    ensures { result ≡ filled_to BLOCK bytes.now }
{
    let mut block = [0; BLOCK];
    block[..bytes.len()].copy_from_slice(bytes);
    block
}

fn mask(block: &mut [u8], pad: u8)
    ensures { block.new ≡ masked_by pad block.old }
{
    for byte in block.iter_mut() {
        *byte ^= pad;
    }
}

// The value under a key that fills a block.
fn keyed_hash<D: Digest, const BLOCK: usize>(key: &[u8; BLOCK], message: &[u8]) -> D::Output
where
    D::Output: AsSlice<u8> + Drop,
    ensures { (inner : D.Output) × D.digest_of (masked_by inner_pad key.now ++ message.now) inner
        × D.digest_of (masked_by outer_pad key.now ++ D.Output.items inner) result }
{
    let mut padded = *key;
    mask(&mut padded, INNER_PAD);
    let mut inner = D::new();
    inner.update(padded);
    inner.update(message);
    let mut padded = *key;
    mask(&mut padded, OUTER_PAD);
    let mut outer = D::new();
    outer.update(padded);
    outer.update(inner.finalize());
    outer.finalize()
}

/// HMAC-SHA-256 of a message under a key of any length (RFC 2104, section 2).
#[tactic(auto, unfolding(crate::specs::Hmac::hmac_of, crate::specs::Hmac::hmac256_of))]
pub fn hmac256(key: &[u8], message: &[u8]) -> [u8; 32]
    ensures { result ≡ hmac256_of key.now message.now }
{
    let block: [u8; SHA256_BLOCK] = if key.len() > SHA256_BLOCK {
        filled(&Sha256::digest(key))
    } else {
        filled(key)
    };
    keyed_hash::<Sha256, SHA256_BLOCK>(&block, message)
}

/// HMAC-SHA-384 of a message under a key of any length (RFC 2104, section 2).
#[tactic(auto, unfolding(crate::specs::Hmac::hmac_of, crate::specs::Hmac::hmac384_of))]
pub fn hmac384(key: &[u8], message: &[u8]) -> [u8; 48]
    ensures { result ≡ hmac384_of key.now message.now }
{
    let block: [u8; SHA384_BLOCK] = if key.len() > SHA384_BLOCK {
        filled(&Sha384::digest(key))
    } else {
        filled(key)
    };
    keyed_hash::<Sha384, SHA384_BLOCK>(&block, message)
}
