//! The PCRs whose values are fixed.

ghost use Rattle.std.specs.Prelude.{◌≡◌, ◌≢◌, ◌≤◌, List, ℕ, IfOk, IfSome, IfNone, Err};
ghost use Rattle.std.specs.Fmt.{decimal};
ghost use Rattle.kl_pcr.specs.declared.statics.Static.{Static};
ghost use Rattle.kl_script.specs.Digits.{IsDigest};
ghost use Rattle.kl_script.specs.Statics.{IsStatic, IsStatics};

use crate::digits::read_digest;
use crate::fault::CommandFault;
use crate::numbers::read_number;
use crate::pieces::{Spelled, read_pieces};
use crate::words::cut_at;
use kl_bank::Digest;
use kl_pcr::{Digests, Static, Statics};
use std::alloc::Global;

/// The PCR of the highest number that can be fixed.
const LAST_PCR: u64 = 23;

impl Spelled for Digest {
    ghost spells = { IsDigest };

    fn read(alloc: Global, written: &str) -> Result<Digest, CommandFault> {
        read_digest(alloc, written)
    }
}

/// The number of a PCR: 0 to 23, without a leading zero.
fn read_pcr(written: &str) -> Option<u8>
    ensures found { IfSome result (λ pcr. (pcr ≤ 23) × (written.now ≡ decimal pcr)) }
    ensures none { IfNone result ((pcr : ℕ) → pcr ≤ 23 → written.now ≢ decimal pcr) }
{
    let pcr = read_number(written)?;
    if pcr > LAST_PCR {
        return None;
    }
    Some(pcr as u8)
}

impl Spelled for Static {
    ghost spells = { IsStatic };

    /// The number of a PCR, an equals sign, and the digests that are allowed there, between commas.
    fn read(alloc: Global, written: &str) -> Result<Static, CommandFault> {
        let (pcr, digests) = cut_at(written, b'=')?;
        let Some(pcr) = read_pcr(pcr) else {
            return Err(CommandFault::NoCommand);
        };
        let allowed = Digests::new(read_pieces(alloc, digests, ',')?);
        Ok(Static { pcr, allowed })
    }
}

/// The parts between semicolons, or `-` for none.
pub(crate) fn read_statics(alloc: Global, written: &str) -> Result<Statics, CommandFault>
    ensures found { IfOk result (λ statics. IsStatics written.now statics) }
    ensures none { result ≡ Err CommandFault.NoCommand → (statics : List Static) → ¬ (IsStatics written.now statics) }
{
    if written == "-" {
        return Ok(Statics::new(Vec::new(alloc)));
    }
    Ok(Statics::new(read_pieces(alloc, written, ';')?))
}
