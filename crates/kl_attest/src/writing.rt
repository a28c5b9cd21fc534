//! Writing a quote.

ghost use Rattle.std.specs.Prelude.{◌≡◌, ◌≤◌, ◌<◌, ◌^◌, ◌++◌, ℕ, length, OnOk, IfOk, if◌then◌else◌};
ghost use Rattle.std.specs.Int.{w16};
ghost use Rattle.kl_attest.specs.Grammar.{joined, counted, header_fields, clock_fields, selections_fields, IsSized, Spells};
ghost use Rattle.kl_attest.specs.Pcrs.{OneSet};
ghost use Rattle.kl_attest.specs.Views.{quoted_of, selections_of};

use crate::attest::AttestParts;
use crate::cursor::{ATTEST_QUOTE, MAGIC};
use kl_base::Memory;
use std::alloc::{AllocError, Global};

/// Writes the quote that has these parts, with one selection of three bytes.
#[tactic(auto, unfolding(crate::specs::Grammar::text_of))]
pub fn write_attest(alloc: Global, parts: &AttestParts<'_>) -> Result<Vec<u8>, Memory>
    requires signer { length parts.now.signer.now ≤ 65535 }
    requires extra { length parts.now.extra.now ≤ 65535 }
    requires pcr_digest { length parts.now.pcr_digest.now ≤ 65535 }
    requires mask { parts.now.mask < 2 ^ 24 }
    // The bytes spell these fields.
    ensures spelled { IfOk result (λ bytes. Spells bytes.items (quoted_of parts.now)) }
    // Its selection has the PCRs of the mask.
    ensures set { OnOk result (0 < parts.now.mask → OneSet (quoted_of parts.now).selections parts.now.alg parts.now.mask) }
{
    let mut out = Vec::new(alloc);
    put_head(&mut out, parts)?;
    put_clock(&mut out, parts)?;
    out.extend_from_slice(&parts.firmware.to_be_bytes())?;
    put_selection(&mut out, parts)?;
    put_sized(&mut out, parts.pcr_digest)?;
    Ok(out)
}

fn put_sized(out: &mut Vec<u8>, bytes: &[u8]) -> Result<(), AllocError>
    requires { length bytes.now ≤ 65535 }
    ensures text { OnOk result (out.new.items ≡ out.old.items ++ joined (counted w16 bytes.now)) }
    ensures fits { OnOk result (IsSized (2 ^ 16) bytes.now) }
{
    out.extend_from_slice(&(bytes.len() as u16).to_be_bytes())?;
    out.extend_from_slice(bytes)?;
    Ok(())
}

fn put_head(out: &mut Vec<u8>, parts: &AttestParts<'_>) -> Result<(), AllocError>
    requires signer { length parts.now.signer.now ≤ 65535 }
    requires extra { length parts.now.extra.now ≤ 65535 }
    ensures text { OnOk result (out.new.items ≡ out.old.items ++ joined (header_fields ++ counted w16 parts.now.signer.now ++ counted w16 parts.now.extra.now)) }
    ensures signer { OnOk result (IsSized (2 ^ 16) parts.now.signer.now) }
    ensures extra { OnOk result (IsSized (2 ^ 16) parts.now.extra.now) }
{
    out.extend_from_slice(&MAGIC.to_be_bytes())?;
    out.extend_from_slice(&ATTEST_QUOTE.to_be_bytes())?;
    put_sized(out, parts.signer)?;
    put_sized(out, parts.extra)?;
    Ok(())
}

fn put_clock(out: &mut Vec<u8>, parts: &AttestParts<'_>) -> Result<(), AllocError>
    ensures text { OnOk result (out.new.items ≡ out.old.items ++ joined (clock_fields parts.now.clock parts.now.reset parts.now.restart parts.now.safe)) }
    ensures clock { OnOk result (parts.now.clock < 2 ^ 64) }
    ensures reset { OnOk result (parts.now.reset < 2 ^ 32) }
    ensures restart { OnOk result (parts.now.restart < 2 ^ 32) }
{
    out.extend_from_slice(&parts.clock.to_be_bytes())?;
    out.extend_from_slice(&parts.reset.to_be_bytes())?;
    out.extend_from_slice(&parts.restart.to_be_bytes())?;
    out.push(yes_no(parts.safe))?;
    Ok(())
}

// TPMI_YES_NO.
fn yes_no(flag: bool) -> u8
    ensures { result ≡ (if flag then 1 else 0) }
{
    if flag { 1 } else { 0 }
}

// One selection, whose three bytes are the mask with its lowest byte first.
fn put_selection(out: &mut Vec<u8>, parts: &AttestParts<'_>) -> Result<(), AllocError>
    ensures text { OnOk result (out.new.items ≡ out.old.items ++ joined (selections_fields (selections_of parts.now))) }
    ensures alg { OnOk result (parts.now.alg < 2 ^ 16) }
{
    let [low, middle, high, _] = parts.mask.to_le_bytes();
    out.extend_from_slice(&1u32.to_be_bytes())?;
    out.extend_from_slice(&parts.alg.to_be_bytes())?;
    out.extend_from_slice(&[3, low, middle, high])?;
    Ok(())
}
