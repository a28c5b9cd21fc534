//! The PCR values that a quote is about.
ghost use Rattle.std.specs.Prelude.{◌≡◌, ℕ, ◌*◌, ◌<◌, ◌↔◌, IsTrue, IfNone, IfSome, List, length, count_ones};
ghost use Rattle.kl_bank.specs.Banks.{size_of};
ghost use Rattle.kl_pcr.specs.Values.{HaveSize, IsSelected, lower_of, pcr_digest_of, value_at, values_of};

use kl_bank::{Bank, Digest};
use sha2::{Digest as _, Sha256};

/// The digest that a quote signs in place of the PCR values, which are concatenated in ascending
/// order of their PCRs (`pcrDigest` of TPMS_QUOTE_INFO, TPM 2.0 Library, Part 2, section 10.12). That it
/// is their SHA-256 in every bank is this project's choice: a TPM takes the hash of its signing scheme.
pub fn pcr_digest(values: &[u8]) -> [u8; 32]
    ensures { result ≡ pcr_digest_of values.now }
{
    Sha256::digest(values)
}

/// The value of PCR `n`, or None where it does not stand in the mask. The values are those of the
/// mask's PCRs, of which bit `n` is PCR `n`, concatenated in ascending order.
pub fn value(bank: Bank, mask: u32, values: &[u8], n: u8) -> Option<Digest>
    requires { length values.now ≡ size_of bank * count_ones mask }
    ensures selected { IfSome result (λ _. IsSelected mask n) }
    ensures value { IfSome result (λ digest. digest ≡ value_at bank mask values.now n) }
    ensures in_order { (held : ℕ → List ℕ) → HaveSize bank held → values.now ≡ values_of mask held
        → IfSome result (λ digest. digest ≡ held n) }
    ensures sized { IfSome result (λ digest. length digest ≡ size_of bank) }
    ensures none { IfNone result (¬ (IsSelected mask n)) }
{
    if !selects(mask, n) {
        return None;
    }
    let size = bank.size();
    let begin = size * lower(mask, n);
    bank.digest(&values[begin..begin + size])
}

/// Whether PCR `n` stands in the mask.
pub(crate) fn selects(mask: u32, n: u8) -> bool
    ensures selected { IsTrue result ↔ IsSelected mask n }
    ensures below { IsTrue result → n < 32 }
{
    n < 32 && (mask >> n) & 1 == 1
}

/// How many PCRs of the mask are below `n`.
fn lower(mask: u32, n: u8) -> usize
    requires { n < 32 }
    ensures { result ≡ lower_of mask n }
{
    (mask & ((1 << n) - 1)).count_ones() as usize
}
