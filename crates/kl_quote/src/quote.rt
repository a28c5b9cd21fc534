//! The text of a quote, read and written.
ghost use Rattle.std.specs.Prelude.{◌≡◌, ℕ, List, ◌∷◌, ◌++◌, IfOk, IfSome, IfNone};
ghost use Rattle.std.specs.String.{string_bytes};
ghost use Rattle.kl_quote.specs.QuoteText.{quote_text, colons, HasForm, AreParts, IsBase64, IsBase64Of, IsQuoteText, IsFormFault, FailsAs, ReadsAs};

use base64::DecodeAllocError;
use base64::engine::general_purpose::STANDARD;
use kl_base::Memory;
use kl_states::Blob;
use std::alloc::{AllocError, Global};

/// What a TPM answers to `TPM2_Quote`, and the PCR values that it covers.
#[derive(Debug, Drop)]
pub struct Quote {
    /// The `TPMS_ATTEST` structure, as the TPM marshals it.
    pub attest: Blob,
    /// The signature over `attest`.
    pub signature: Blob,
    /// The values of the selected PCRs, in ascending order and with nothing between them.
    pub pcrs: Blob,
}

/// Why a text gave no quote.
#[derive(Clone, Copy, Debug, PartialEq, Eq)]
pub enum QuoteFault {
    /// 0: the text does not begin with `r` or has not exactly two colons. 1 to 3: the first of
    /// its parts that is not base64.
    Form(u8),
    /// Memory ran out.
    Memory,
}

/// The three parts of a text, still in base64.
#[derive(Clone, Copy)]
struct Parts<'a> {
    attest: &'a str,
    signature: &'a str,
    pcrs: &'a str,
}

/// The text before the first colon, and the text after it.
fn cut_at_colon(text: &str) -> Option<(&str, &str)>
    ensures found { IfSome result (λ x. text.now ≡ x.0.now ++ 58 ∷ x.1.now) }
    ensures first { IfSome result (λ x. colons x.0.now ≡ 0) }
    ensures none { IfNone result (colons text.now ≡ 0) }
{
    text.split_once(':')
}

/// The parts of a text that begins with `r` and has exactly two colons.
fn parts_of(text: &str) -> Option<Parts<'_>>
    ensures parts { IfSome result (λ p. AreParts text.now p.attest.now p.signature.now p.pcrs.now) }
    ensures form { IfSome result (λ p. HasForm text.now) }
    ensures none { IfNone result (¬ HasForm text.now) }
{
    let rest = text.strip_prefix('r')?;
    let (attest, rest) = cut_at_colon(rest)?;
    let (signature, pcrs) = cut_at_colon(rest)?;
    match cut_at_colon(pcrs) {
        Some(_) => None,
        None => Some(Parts {
            attest,
            signature,
            pcrs,
        }),
    }
}

/// The bytes of the part with this number.
fn decode_part(alloc: Global, part: &str, number: u8) -> Result<Blob, QuoteFault>
    ensures bytes { IfOk result (λ b. IsBase64Of part.now b) }
    ensures fault { (k : ℕ) → result ≡ Err (QuoteFault.Form k) → (k ≡ number) × (¬ IsBase64 part.now) }
{
    match STANDARD.decode(alloc, part.as_bytes()) {
        Ok(bytes) => Ok(Blob::new(bytes)),
        Err(DecodeAllocError::OutOfMemory) => Err(QuoteFault::Memory),
        Err(_) => Err(QuoteFault::Form(number)),
    }
}

/// Decodes the parts of a text, in their order.
fn decode(alloc: Global, text: &str) -> Result<Quote, QuoteFault>
    ensures found { IfOk result (λ q. IsQuoteText text.now q.attest q.signature q.pcrs) }
    ensures fault { (part : ℕ) → result ≡ Err (QuoteFault.Form part) → IsFormFault text.now part }
    ensures memory { result ≡ Err QuoteFault.Memory → HasForm text.now }
{
    let Some(parts) = parts_of(text) else {
        return Err(QuoteFault::Form(0));
    };
    let attest = decode_part(alloc, parts.attest, 1)?;
    let signature = decode_part(alloc, parts.signature, 2)?;
    let pcrs = decode_part(alloc, parts.pcrs, 3)?;
    Ok(Quote {
        attest,
        signature,
        pcrs,
    })
}

/// Reads the text of a quote: `r`, and then the attestation structure, the signature and the PCR
/// values, each in base64 with the standard alphabet and padding (RFC 4648, section 4), parted by
/// colons. Only the canonical text of a part is read: no bit past its last byte is set.
///
/// # Errors
///
/// [`QuoteFault::Form`] where the text is no such quote, and [`QuoteFault::Memory`] where memory ran
/// out, which a text without the form never meets.
pub fn read_quote(alloc: Global, text: &str) -> Result<Quote, QuoteFault>
    ensures found { IfOk result (λ q. IsQuoteText text.now q.attest q.signature q.pcrs) }
    ensures only { (attest signature values : List ℕ) → IsQuoteText text.now attest signature values → ReadsAs result attest signature values }
    ensures fault { (part : ℕ) → result ≡ Err (QuoteFault.Form part) → IsFormFault text.now part }
    // A text with a fault is answered by that one, unless memory ran out.
    ensures alone { (part : ℕ) → IsFormFault text.now part → FailsAs result part }
    // A text that lacks the form is told so, whatever memory is left.
    ensures formless { ¬ HasForm text.now → result ≡ Err (QuoteFault.Form 0) }
{
    decode(alloc, text)
}

/// Writes the text of a quote, as [`read_quote`] reads it.
///
/// # Errors
///
/// [`Memory`].
pub fn write_quote(
    alloc: Global,
    attest: &[u8],
    signature: &[u8],
    pcrs: &[u8],
) -> Result<String, Memory>
    ensures text { IfOk result (λ text. string_bytes text ≡ quote_text attest.now signature.now pcrs.now) }
    ensures quote { IfOk result (λ text. IsQuoteText (string_bytes text) attest.now signature.now pcrs.now) }
{
    let mut text = String::new(alloc);
    text.push('r')?;
    STANDARD.encode_string(attest, &mut text)?;
    text.push(':')?;
    STANDARD.encode_string(signature, &mut text)?;
    text.push(':')?;
    STANDARD.encode_string(pcrs, &mut text)?;
    Ok(text)
}
