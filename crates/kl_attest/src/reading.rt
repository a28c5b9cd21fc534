//! Reading a quote.

ghost use Rattle.std.specs.Prelude.{◌≡◌, Err, IfOk, IfErr, IsOkAnd};
ghost use Rattle.kl_attest.specs.Grammar.{Quoted, Spells};
ghost use Rattle.kl_attest.specs.FirstFault.{IsFirstFault};
ghost use Rattle.kl_attest.specs.Inner.Reading.{Gives, quoted_at, all_of};
ghost use Rattle.kl_attest.specs.Inner.Seen.{place_of};
ghost use Rattle.kl_attest.specs.Views.{view};

use crate::attest::Attest;
use crate::cursor::Cursor;
use crate::fault::AttestFault;
use crate::selections::read_selections;

/// Reads a quote, which is all of the bytes: TPMS_ATTEST with TPMS_QUOTE_INFO of the TPM 2.0
/// Library, Part 2, each number with its highest byte first. Fields are read from left to right,
/// and the fault is the first that is met.
pub fn read_attest(bytes: &[u8]) -> Result<Attest<'_>, AttestFault>
    // What is read is spelled so.
    ensures found { IfOk result (λ a. Spells bytes.now (view a)) }
    // What is spelled so is read.
    ensures only { (q : Quoted) → Spells bytes.now q → IsOkAnd result (λ a. view a ≡ q) }
    // What is answered is the first field that does not fit, or bytes behind the whole.
    ensures fault { IfErr result (IsFirstFault bytes.now) }
    // What does not fit first is answered.
    ensures alone { (f : AttestFault) → IsFirstFault bytes.now f → result ≡ Err f }
{
    read_whole(bytes)
}

#[tactic(auto, unfolding(crate::specs::Inner::Reading::all_of))]
fn read_whole(bytes: &[u8]) -> Result<Attest<'_>, AttestFault>
    ensures { Gives view result (all_of bytes.now) }
{
    let (attest, after) = read_fields(Cursor::new(bytes))?;
    if !after.rest.is_empty() {
        return Err(AttestFault::Tail(after.at));
    }
    Ok(attest)
}

#[tactic(auto, unfolding(crate::specs::Inner::Reading::quoted_at))]
fn read_fields<'a>(cursor: Cursor<'a>) -> Result<(Attest<'a>, Cursor<'a>), AttestFault>
    ensures { Gives (λ x. (view x.0, place_of x.1)) result (quoted_at (place_of cursor.entry)) }
{
    let after = cursor.read_header()?;
    let (signer, after) = after.read_sized()?;
    let (extra, after) = after.read_sized()?;
    let (info, after) = after.read_clock()?;
    let (firmware, after) = after.read_u64()?;
    let (selections, after) = read_selections(after)?;
    let (pcr_digest, after) = after.read_sized()?;
    let attest = Attest {
        signer,
        extra,
        clock: info.clock,
        reset: info.reset,
        restart: info.restart,
        safe: info.safe,
        firmware,
        selections,
        pcr_digest,
    };
    Ok((attest, after))
}
