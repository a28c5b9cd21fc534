//! The rules on the quote alone.

ghost use Rattle.std.specs.Prelude.{◌≡◌, ◌⊎◌, ◌*◌, ◌↔◌, Bool, length, count_ones, IfOk, IfErr, IfSome, IfNone, IsErrOf, IsTrue, None, Some, true, false};
ghost use Rattle.std.specs.Result.{result_ok};
ghost use Rattle.kl_bank.specs.Banks.{alg_of, name_of, size_of};
ghost use Rattle.kl_attest.specs.Pcrs.{OneSet};
ghost use Rattle.kl_attest.specs.Views.{view};
ghost use Rattle.kl_io.specs.Calls.{HasCause};
ghost use Rattle.kl_pcr.specs.Values.{IsSelected, value_at, binding_of};
ghost use Rattle.kl_quote.specs.QuoteText.{IsQuoteText};
ghost use Rattle.kl_appraise.specs.Evidence.{Attests, HasValues};
ghost use Rattle.kl_appraise.specs.Asking.{Asked, AskedOnce};
ghost use Rattle.kl_appraise.specs.QuoteRules.{◌otherwise◌, ByBank, ByAttest, SignedRules, MeetsRules, IsAnswered, IsUnasked, attest_cause};
ghost use Rattle.kl_appraise.specs.Inner.Checked.{check_for, answer_of, ChecksAs, IsReadable};

use crate::fault::AppraiseError;
use crate::judged::Boot;
use kl_attest::{Attest, AttestFault, Selections, read_attest};
use kl_bank::Bank;
use kl_keys::{Keys, KeysFault};
use kl_pcr::{binding, pcr_digest, value};
use kl_quote::{Evidence, Quote, QuoteFault, read_quote};
use kl_states::{AttestCause, Blob, InvalidCause, Nonce};
use std::alloc::Global;

/// The PCR that the agent's key is extended into.
const BINDING_PCR: u8 = 16;

/// What a quote is asked to be.
#[derive(Clone, Copy)]
pub struct Wanted<'a> {
    /// The bank of the quoted PCRs.
    pub bank: Bank,
    /// The quoted PCRs, as the sum of 2^n for each PCR n.
    pub mask: u32,
    /// The attestation key that signs.
    pub ak: &'a [u8],
    /// The nonce that is signed.
    pub nonce: &'a Nonce,
}

/// What was found of a quote.
#[derive(Drop)]
pub enum Checked {
    /// The first rule that applies, and whether the quote is signed.
    Refused(InvalidCause, bool),
    /// No rule applies.
    Sound(SoundQuote),
}

/// What a quote shows of a machine, where it is what was asked for.
#[derive(Drop)]
pub struct SoundQuote {
    /// The boot that it signs.
    pub boot: Boot,
    /// The values of the quoted PCRs, in ascending order of these.
    pub values: Blob,
}

/// Checks a quote by the nine rules that look at nothing else.
pub fn check_quote<Y: Keys>(
    alloc: Global,
    wanted: &Wanted<'_>,
    evidence: &Evidence,
    keys: &mut Y,
) -> Result<Checked, AppraiseError>
    requires binding { IsSelected wanted.now.mask BINDING_PCR }
    ensures rules { IfOk result (ChecksAs (check_for wanted.now evidence.now)) }
    ensures answered { IfOk result (λ c. IsAnswered (Y.told keys.old).relations wanted.now.ak.now (check_for wanted.now evidence.now (answer_of c))) }
    ensures question { IfOk result (λ c. IsUnasked (check_for wanted.now evidence.now false)
        ⊎ Asked (Y.told keys.old) (Y.told keys.new) wanted.now.ak.now evidence.now.quote (Some (answer_of c))) }
    ensures fault { IsErrOf result AppraiseError.Keys → Asked (Y.told keys.old) (Y.told keys.new) wanted.now.ak.now evidence.now.quote None }
    ensures asked { IsErrOf result AppraiseError.Keys → ¬ (IsUnasked (check_for wanted.now evidence.now false)) }
    ensures unasked { (keys.new ≡ keys.old) ⊎ (¬ (IsUnasked (check_for wanted.now evidence.now false))) }
    ensures once { (keys.new ≡ keys.old) ⊎ AskedOnce (Y.told keys.old) (Y.told keys.new) wanted.now.ak.now evidence.now.quote }
    ensures told { (Y.told keys.new).relations ≡ (Y.told keys.old).relations }
    ensures spared { IsErrOf result AppraiseError.Keys ⊎ ((Y.told keys.new).calls.faults ≡ (Y.told keys.old).calls.faults) }
    ensures cause { HasCause (Y.told keys.old).calls.faults (Y.told keys.new).calls.faults (IsErrOf result AppraiseError.Keys) }
{
    let quote = match read_quote(alloc, evidence.quote.as_str()) {
        Ok(quote) => quote,
        Err(QuoteFault::Form(part)) => return Ok(unasked(InvalidCause::Form(part))),
        Err(QuoteFault::Memory) => return Err(AppraiseError::Memory),
    };
    let read = match read_signed(wanted, evidence, &quote) {
        Ok(read) => read,
        Err(why) => return Ok(unasked(why)),
    };
    if !ask(wanted.ak, evidence, &quote, keys)? {
        return Ok(Checked::Refused(InvalidCause::Signature, false));
    }
    if let Some(why) = first_unmet(wanted, evidence, &read, quote.pcrs.as_slice()) {
        return Ok(Checked::Refused(why, true));
    }
    let boot = Boot {
        reset: read.reset,
        restart: read.restart,
    };
    let values = quote.pcrs;
    Ok(Checked::Sound(SoundQuote { boot, values }))
}

/// A refusal for which the key object was not asked.
fn unasked(why: InvalidCause) -> Checked
    ensures { result ≡ Checked.Refused why false }
{
    Checked::Refused(why, false)
}

/// What a quote of the wanted bank signs, or the rule that says that there is nothing to ask the key
/// object for.
fn read_signed<'a>(
    wanted: &Wanted<'_>,
    evidence: &Evidence,
    quote: &'a Quote,
) -> Result<Attest<'a>, InvalidCause>
    requires { IsQuoteText evidence.now.quote quote.now.attest quote.now.signature quote.now.pcrs }
    ensures found { IfOk result (λ read. IsReadable wanted.now.bank evidence.now quote.now.attest quote.now.signature quote.now.pcrs (view read)) }
    ensures refused { IfErr result (λ why. (signed : Bool) → (ByBank (check_for wanted.now evidence.now signed) otherwise ByAttest (check_for wanted.now evidence.now signed)) why) }
{
    if evidence.bank.as_str() != wanted.bank.name() {
        return Err(InvalidCause::Bank);
    }
    match read_attest(quote.attest.as_slice()) {
        Ok(read) => Ok(read),
        Err(fault) => Err(InvalidCause::Attest(cause_of(fault))),
    }
}

fn cause_of(fault: AttestFault) -> AttestCause
    ensures { result ≡ attest_cause fault }
{
    match fault {
        AttestFault::Short(at) => AttestCause::Short(at as u64),
        AttestFault::Magic => AttestCause::Magic,
        AttestFault::AttestType => AttestCause::AttestType,
        AttestFault::Safe => AttestCause::Safe,
        AttestFault::Tail(at) => AttestCause::Tail(at as u64),
    }
}

/// Whether the signature of a quote is the attestation key's.
fn ask<Y: Keys>(
    ak: &[u8],
    evidence: &Evidence,
    quote: &Quote,
    keys: &mut Y,
) -> Result<bool, KeysFault>
    requires { IsQuoteText evidence.now.quote quote.now.attest quote.now.signature quote.now.pcrs }
    ensures { Asked (Y.told keys.old) (Y.told keys.new) ak.now evidence.now.quote (result_ok result) }
{
    keys.verify(ak, quote.attest.as_slice(), quote.signature.as_slice())
}

/// The first rule that what was signed does not meet.
fn first_unmet(
    wanted: &Wanted<'_>,
    evidence: &Evidence,
    read: &Attest<'_>,
    values: &[u8],
) -> Option<InvalidCause>
    requires binding { IsSelected wanted.now.mask BINDING_PCR }
    requires bank { evidence.now.bank ≡ name_of wanted.now.bank }
    requires attests { Attests evidence.now.quote (view read.now) }
    requires values { HasValues evidence.now.quote values.now }
    ensures found { IfSome result (λ why. (signed : Bool) → SignedRules (check_for wanted.now evidence.now signed) why) }
    ensures none { IfNone result (MeetsRules (check_for wanted.now evidence.now true) (view read.now) values.now) }
{
    if read.extra != wanted.nonce.as_str().as_bytes() {
        return Some(InvalidCause::Nonce);
    }
    if !selects(&read.selections, wanted) {
        return Some(InvalidCause::Selection);
    }
    if values.len() != wanted.bank.size() * wanted.mask.count_ones() as usize {
        return Some(InvalidCause::PcrLength);
    }
    if read.pcr_digest != pcr_digest(values).as_slice() {
        return Some(InvalidCause::PcrDigest);
    }
    if !is_bound(wanted, values, evidence.public.as_str()) {
        return Some(InvalidCause::Binding);
    }
    None
}

/// Whether the selections are of the wanted PCRs in the wanted bank, and of no others.
fn selects(selections: &Selections<'_>, wanted: &Wanted<'_>) -> bool
    ensures { IsTrue result ↔ OneSet selections.now (alg_of wanted.now.bank) wanted.now.mask }
{
    match selections.one_set() {
        Some((alg, mask)) => alg == wanted.bank.alg() && mask == wanted.mask,
        None => false,
    }
}

/// Whether the hash of this public key's text alone was extended into PCR 16.
fn is_bound(wanted: &Wanted<'_>, values: &[u8], public: &str) -> bool
    requires binding { IsSelected wanted.now.mask BINDING_PCR }
    requires values { length values.now ≡ size_of wanted.now.bank * count_ones wanted.now.mask }
    ensures { IsTrue result ↔ (value_at wanted.now.bank wanted.now.mask values.now BINDING_PCR ≡ binding_of wanted.now.bank public.now) }
{
    match value(wanted.bank, wanted.mask, values, BINDING_PCR) {
        Some(held) => held.as_slice() == binding(wanted.bank, public.as_bytes()).as_slice(),
        None => unreachable!(),
    }
}
