//! The fields of a quote.

use crate::selections::Selections;

/// A quote (TPMS_ATTEST with TPMS_QUOTE_INFO), whose byte fields borrow the text that it was read
/// from.
#[derive(Debug, Drop)]
pub struct Attest<'a> {
    /// The name of the key that signed (qualifiedSigner).
    pub signer: &'a [u8],
    /// What the caller gave to be signed (extraData), as a nonce.
    pub extra: &'a [u8],
    /// Milliseconds that the TPM has been powered.
    pub clock: u64,
    /// How often the TPM was reset (resetCount).
    pub reset: u32,
    /// How often it was restarted or resumed since then (restartCount).
    pub restart: u32,
    /// Whether no higher clock was shown before.
    pub safe: bool,
    /// The version of the TPM's firmware.
    pub firmware: u64,
    /// The PCRs that are quoted, by bank.
    pub selections: Selections<'a>,
    /// The digest of their values, concatenated.
    pub pcr_digest: &'a [u8],
}

/// The fields of a quote that is to be written, with one selection of three bytes.
#[derive(Clone, Copy, Debug)]
pub struct AttestParts<'a> {
    /// The name of the key that signs (qualifiedSigner).
    pub signer: &'a [u8],
    /// What the caller gave to be signed (extraData), as a nonce.
    pub extra: &'a [u8],
    /// Milliseconds that the TPM has been powered.
    pub clock: u64,
    /// How often the TPM was reset (resetCount).
    pub reset: u32,
    /// How often it was restarted or resumed since then (restartCount).
    pub restart: u32,
    /// Whether no higher clock was shown before.
    pub safe: bool,
    /// The version of the TPM's firmware.
    pub firmware: u64,
    /// The algorithm of the bank that is quoted (TPM_ALG_ID).
    pub alg: u16,
    /// The PCRs that are quoted, as the sum of 2^n for each PCR n.
    pub mask: u32,
    /// The digest of their values, concatenated.
    pub pcr_digest: &'a [u8],
}
