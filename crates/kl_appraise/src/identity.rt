//! The check that a quote is of a key that is bound to a machine.

ghost use Rattle.std.specs.Prelude.{◌≡◌, ◌⊎◌, Bool, IfOk, IfNone, IsErrOf, None, Some, true, false};
ghost use Rattle.kl_io.specs.Calls.{HasCause};
ghost use Rattle.kl_appraise.specs.Identity.{identity_check};
ghost use Rattle.kl_appraise.specs.Asking.{Asked, AskedOnce};
ghost use Rattle.kl_appraise.specs.QuoteRules.{FindsCause, IsAnswered, IsGoodQuote, IsUnasked};
ghost use Rattle.kl_appraise.specs.Inner.Checked.{cause_in};

use crate::fault::AppraiseError;
use crate::quoted::{Checked, Wanted, check_quote};
use kl_bank::Bank;
use kl_keys::Keys;
use kl_quote::Evidence;
use kl_states::{InvalidCause, Nonce};
use std::alloc::Global;

/// The mask of PCR 16 alone, into which an agent's key is extended.
const IDENTITY_MASK: u32 = 0x1_0000;

/// The first rule on a quote that the evidence breaks, if it breaks one, where the quote is to be of PCR 16
/// alone in the SHA-256 bank: so a quote that breaks none shows that the machine of this attestation key
/// has the public key.
///
/// # Errors
///
/// `Keys` where the key object could not be asked for the signature; `Memory` where memory ran out.
pub fn check_identity<Y: Keys>(
    alloc: Global,
    ak: &[u8],
    nonce: &Nonce,
    evidence: &Evidence,
    keys: &mut Y,
) -> Result<Option<InvalidCause>, AppraiseError>
    // The cause is that of the first rule that applies, where signed is what the key object answers: it was
    // asked, unless one of rules 1 to 3 decides.
    ensures rules { IfOk result (λ found. (signed : Bool)
        × IsAnswered (Y.told keys.old).relations ak.now (identity_check nonce.now evidence.now signed)
        × (IsUnasked (identity_check nonce.now evidence.now false)
        ⊎ Asked (Y.told keys.old) (Y.told keys.new) ak.now evidence.now.quote (Some signed))
        × FindsCause (identity_check nonce.now evidence.now signed) found) }
    // Where none is found, the quote met all tests.
    ensures quote { IfOk result (λ found. IfNone found (IsGoodQuote (identity_check nonce.now evidence.now true))) }
    // It is blamed only where it was asked, since none of those rules decides, and met a fault.
    ensures fault { IsErrOf result AppraiseError.Keys
        → Asked (Y.told keys.old) (Y.told keys.new) ak.now evidence.now.quote None }
    ensures asked { IsErrOf result AppraiseError.Keys → ¬ (IsUnasked (identity_check nonce.now evidence.now false)) }
    // It is left as it was where one of them decides, and else too, or asked once about this quote.
    ensures unasked { (keys.new ≡ keys.old) ⊎ (¬ (IsUnasked (identity_check nonce.now evidence.now false))) }
    ensures once { (keys.new ≡ keys.old) ⊎ AskedOnce (Y.told keys.old) (Y.told keys.new) ak.now evidence.now.quote }
    ensures told { (Y.told keys.new).relations ≡ (Y.told keys.old).relations }
    // It met no fault, unless it is blamed; its count of faults never falls, and rose where it is blamed.
    ensures spared { IsErrOf result AppraiseError.Keys
        ⊎ ((Y.told keys.new).calls.faults ≡ (Y.told keys.old).calls.faults) }
    ensures cause { HasCause (Y.told keys.old).calls.faults (Y.told keys.new).calls.faults
        (IsErrOf result AppraiseError.Keys) }
{
    let wanted = Wanted {
        bank: Bank::Sha256,
        mask: IDENTITY_MASK,
        ak,
        nonce,
    };
    let checked = check_quote(alloc, &wanted, evidence, keys)?;
    Ok(cause_in(checked))
}

/// The cause of a refusal.
fn cause_in(checked: Checked) -> Option<InvalidCause>
    ensures { result ≡ cause_in checked }
{
    match checked {
        Checked::Refused(why, _) => Some(why),
        Checked::Sound(_) => None,
    }
}
