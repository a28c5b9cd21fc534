//! What is extended into a PCR, and the value that comes of it.
ghost use Rattle.std.specs.Prelude.{◌≡◌, ◌+◌, List, ◌++◌, length, map, All};
ghost use Rattle.kl_bank.specs.Banks.{ones_of, size_of};
ghost use Rattle.kl_entry.specs.Entries.{EntryFields, data_of};
ghost use Rattle.kl_pcr.specs.Measured.{measured_of};
ghost use Rattle.kl_pcr.specs.Replay.{folded, replay_of};
ghost use Rattle.kl_pcr.specs.Values.{binding_of};

use crate::counting::Steps;
use kl_bank::{Bank, Digest};
use kl_entry::{Entry, EntryData, violation};
use std::sync::ledger::Ledger;

/// What the bank's PCR is extended by for this entry of the measurement list: the digest of its
/// template data, or bytes 0xFF for a violation. One call is one step.
pub fn measured<L: Ledger>(bank: Bank, entry: &Entry<'_>, steps: &mut Steps<L>) -> Digest
    ensures value { result ≡ measured_of bank entry.now }
    ensures sized { length result ≡ size_of bank }
    ensures cost { steps.new ≡ steps.old + 1 }
{
    measured_with(bank, entry, &EntryData::of(entry), steps)
}

/// What [`measured`] gives, of an entry whose template data is laid out already. One call is one step.
pub fn measured_with<L: Ledger>(
    bank: Bank,
    entry: &Entry<'_>,
    laid_out: &EntryData,
    steps: &mut Steps<L>,
) -> Digest
    requires { laid_out.now ≡ data_of entry.now }
    ensures value { result ≡ measured_of bank entry.now }
    ensures sized { length result ≡ size_of bank }
    ensures cost { steps.new ≡ steps.old + 1 }
{
    steps.tick();
    if violation(entry) {
        violation_digest(bank)
    } else {
        bank.hash(laid_out.as_slice())
    }
}

/// What a violation extends: bytes 0xFF alone, since it has no digest.
fn violation_digest(bank: Bank) -> Digest
    ensures value { result ≡ ones_of bank }
    ensures sized { length result ≡ size_of bank }
{
    bank.ones()
}

/// The value of a PCR that held `start`, after it was extended by these digests in order.
pub fn replay(bank: Bank, start: &Digest, with: &[Digest]) -> Digest
    requires start { length start.now ≡ size_of bank }
    requires with { All (λ digest. length digest ≡ size_of bank) with.now }
    ensures value { result ≡ folded bank start.now with.now }
    ensures entries { (first more : List EntryFields) → start.now ≡ replay_of bank first → with.now ≡ map (measured_of bank) more
        → result ≡ replay_of bank (first ++ more) }
    ensures sized { length result ≡ size_of bank }
{
    let mut held = *start;
    for digest in with {
        held = bank.extend(&held, digest);
    }
    held
}

/// The value of a PCR of zeros into which the hash of this public key's text was extended, by which an
/// agent binds its key to PCR 16. No standard has this binding.
pub fn binding(bank: Bank, public: &[u8]) -> Digest
    ensures value { result ≡ binding_of bank public.now }
    ensures sized { length result ≡ size_of bank }
{
    bank.extend(&bank.zeros(), &bank.hash(public))
}
