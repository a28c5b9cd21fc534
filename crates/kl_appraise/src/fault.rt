//! Why terms are refused, and why an appraisal gives no verdict.

use kl_base::Memory;
use kl_keys::KeysFault;

/// Why no terms were made.
#[derive(Clone, Copy, Debug, PartialEq, Eq)]
pub enum TermsFault {
    /// The mask lacks PCR 10 or PCR 16, or has a PCR above 23.
    Mask,
    /// The static PCRs are not such as `kl_pcr::statics_ok` asks for.
    Static,
}

/// Why an appraisal gives no verdict.
#[derive(Clone, Copy, Debug, PartialEq, Eq)]
pub enum AppraiseError {
    /// The key object could not be asked.
    Keys,
    /// Memory ran out.
    Memory,
}

impl From<KeysFault> for AppraiseError {
    ghost use Rattle.std.specs.Prelude.{◌≡◌};
    ghost use Rattle.kl_appraise.specs.declared.fault.AppraiseError.TheVariants.{Keys};

    ghost from_gives = { λ _ e. e ≡ Keys };

    fn from(_fault: KeysFault) -> AppraiseError {
        AppraiseError::Keys
    }
}

impl From<Memory> for AppraiseError {
    ghost use Rattle.std.specs.Prelude.{◌≡◌};
    ghost use Rattle.kl_appraise.specs.declared.fault.AppraiseError.TheVariants.{Memory as no_memory};

    ghost from_gives = { λ _ e. e ≡ no_memory };

    fn from(_refused: Memory) -> AppraiseError {
        AppraiseError::Memory
    }
}
