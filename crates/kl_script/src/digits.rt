//! Hexadecimal words.

ghost use Rattle.std.specs.Prelude.{◌≡◌, List, ℕ, Option, IfOk, IfSome, IfNone, Err};
ghost use Rattle.kl_script.specs.Digits.{IsDigest, IsHex, IsKey, IsMask, IsShare};

use crate::fault::CommandFault;
use hex::{FromHex, FromHexError};
use kl_bank::{Bank, Digest};
use kl_states::Blob;
use std::alloc::Global;

/// The bytes of these digits.
fn read_hex(alloc: Global, written: &str) -> Result<Vec<u8>, CommandFault>
    ensures found { IfOk result (λ bytes. IsHex written.now bytes.items) }
    ensures none { result ≡ Err CommandFault.NoCommand → (bytes : List ℕ) → ¬ (IsHex written.now bytes) }
{
    match hex::decode(alloc, written) {
        Ok(bytes) => Ok(bytes),
        Err(FromHexError::OutOfMemory) => Err(CommandFault::Memory),
        Err(_) => Err(CommandFault::NoCommand),
    }
}

/// A key: 2 to 1,024 digits.
pub(crate) fn read_key(alloc: Global, written: &str) -> Result<Blob, CommandFault>
    ensures found { IfOk result (λ key. IsKey written.now key) }
    ensures none { result ≡ Err CommandFault.NoCommand → (key : List ℕ) → ¬ (IsKey written.now key) }
{
    if written.len() < 2 || written.len() > 1024 {
        return Err(CommandFault::NoCommand);
    }
    Ok(Blob::new(read_hex(alloc, written)?))
}

/// A share of a payload key: 64 digits, or `-` for none.
pub(crate) fn read_share(written: &str) -> Result<Option<[u8; 32]>, CommandFault>
    ensures found { IfOk result (λ share. IsShare written.now share) }
    ensures none { result ≡ Err CommandFault.NoCommand → (share : Option (List ℕ)) → ¬ (IsShare written.now share) }
{
    if written == "-" {
        return Ok(None);
    }
    match <[u8; 32] as FromHex>::from_hex(written) {
        Ok(share) => Ok(Some(share)),
        Err(_) => Err(CommandFault::NoCommand),
    }
}

/// A mask of PCRs: `0x` and 1 to 6 digits.
pub(crate) fn read_mask(written: &str) -> Option<u32>
    ensures found { IfSome result (λ mask. IsMask written.now mask) }
    ensures none { IfNone result ((mask : ℕ) → ¬ (IsMask written.now mask)) }
{
    let digits = written.strip_prefix("0x")?;
    if digits.len() > 6 {
        return None;
    }
    if digits.starts_with('+') {
        return None;
    }
    u32::from_str_radix(digits, 16).ok()
}

/// A digest, whose length tells its bank.
pub(crate) fn read_digest(alloc: Global, written: &str) -> Result<Digest, CommandFault>
    ensures found { IfOk result (λ digest. IsDigest written.now digest) }
    ensures none { result ≡ Err CommandFault.NoCommand → (digest : List ℕ) → ¬ (IsDigest written.now digest) }
{
    let bytes = read_hex(alloc, written)?;
    let bank = match bytes.len() {
        20 => Bank::Sha1,
        32 => Bank::Sha256,
        48 => Bank::Sha384,
        _ => return Err(CommandFault::NoCommand),
    };
    bank.digest(&bytes).ok_or(CommandFault::NoCommand)
}
