//! PCRs whose values are fixed once the machine has booted.
ghost use Rattle.std.specs.Prelude.{◌≡◌, ◌≢◌, ◌≤◌, ◌*◌, ◌↔◌, IsTrue, length, take, count_ones, min, All, Any, AllPairs, Contains};
ghost use Rattle.std.specs.Option.{option_map_or};
ghost use Rattle.kl_bank.specs.Banks.{size_of};
ghost use Rattle.kl_pcr.specs.Values.{IsSelected};
ghost use Rattle.kl_pcr.specs.Statics.{AreStatics, IsAllowed, IsFirstWrong, IsStatic};

use crate::listed::Listed;
use crate::quoted::{selects, value};
use kl_bank::{Bank, Digest};

/// The digests that a PCR may have.
pub type Digests = Listed<Digest>;

/// A PCR and the values that it may have.
#[derive(Debug, Drop)]
pub struct Static {
    pub pcr: u8,
    pub allowed: Digests,
}

/// Some PCRs and the values that they may have.
pub type Statics = Listed<Static>;

/// Whether each names a PCR of the mask that is neither 10 nor 16, each names another, and each
/// allows at least one digest, and digests of the bank's size alone.
pub fn statics_ok(bank: Bank, mask: u32, statics: &[Static]) -> bool
    ensures { IsTrue result ↔ AreStatics bank mask statics.now }
{
    statics.iter().all(|item| is_static(bank, mask, item)) && stand_once(statics)
}

fn is_static(bank: Bank, mask: u32, item: &Static) -> bool
    ensures { IsTrue result ↔ IsStatic bank mask item.now }
{
    let allowed = item.allowed.as_slice();
    selects(mask, item.pcr)
        && item.pcr != 10
        && item.pcr != 16
        && !allowed.is_empty()
        && have_size(allowed, bank.size())
}

fn have_size(digests: &[Digest], size: usize) -> bool
    ensures { IsTrue result ↔ All (λ digest. length digest ≡ size) digests.now }
{
    digests.iter().all(|digest| digest.as_slice().len() == size)
}

/// Whether each names another PCR. No more than 32 are looked at where all are PCRs of one mask.
fn stand_once(statics: &[Static]) -> bool
    ensures { IsTrue result ↔ AllPairs (λ s t. s.pcr ≢ t.pcr) statics.now }
{
    for (i, item) in statics.iter().enumerate() {
        if stand_before(statics, i, item.pcr) {
            return false;
        }
    }
    true
}

/// Whether one of the first, so many, names this PCR.
fn stand_before(statics: &[Static], count: usize, pcr: u8) -> bool
    requires { count ≤ length statics.now }
    ensures { IsTrue result ↔ Any (λ s. s.pcr ≡ pcr) (take count statics.now) }
{
    statics[..count].iter().any(|item| item.pcr == pcr)
}

/// The least PCR whose value is none of those that are allowed, or None where all values are
/// allowed. The values are as [`value`] takes them.
pub fn first_wrong(bank: Bank, mask: u32, values: &[u8], statics: &[Static]) -> Option<u8>
    requires values { length values.now ≡ size_of bank * count_ones mask }
    requires statics { AreStatics bank mask statics.now }
    ensures { IsFirstWrong bank mask values.now statics.now result }
{
    let mut least = None;
    for item in statics {
        if !is_allowed(bank, mask, values, item) {
            least = Some(lesser(least, item.pcr));
        }
    }
    least
}

fn is_allowed(bank: Bank, mask: u32, values: &[u8], item: &Static) -> bool
    requires values { length values.now ≡ size_of bank * count_ones mask }
    requires selected { IsSelected mask item.now.pcr }
    ensures { IsTrue result ↔ IsAllowed bank mask values.now item.now }
{
    match value(bank, mask, values, item.pcr) {
        Some(held) => has_digest(item.allowed.as_slice(), &held),
        None => unreachable!(),
    }
}

fn has_digest(digests: &[Digest], wanted: &Digest) -> bool
    ensures { IsTrue result ↔ Contains digests.now wanted.now }
{
    digests
        .iter()
        .any(|digest| digest.as_slice() == wanted.as_slice())
}

/// The PCR, or the least one so far where that is less.
fn lesser(least: Option<u8>, pcr: u8) -> u8
    ensures { result ≡ option_map_or (λ n. min n pcr) least pcr }
{
    match least {
        Some(n) => n.min(pcr),
        None => pcr,
    }
}
