//! What an appraisal finds.

use kl_states::Verdict;

/// The boot of a machine, as its TPM counts: the counters that a quote signs (TPMS_CLOCK_INFO of the
/// TPM 2.0 Library, Part 2).
#[derive(Clone, Copy, Debug, PartialEq, Eq)]
pub struct Boot {
    /// How often the TPM was reset.
    pub reset: u32,
    /// How often it was restarted or resumed since then.
    pub restart: u32,
}

/// What the first rule that applies finds of evidence.
#[derive(Clone, Copy, Debug, PartialEq, Eq)]
pub enum Outcome {
    /// A verdict.
    Verdict(Verdict),
    /// No verdict: the reply continues a list of another boot than that which its quote signs.
    Restart,
}

/// What an appraisal of evidence found.
#[derive(Clone, Copy, Debug, PartialEq, Eq)]
pub struct Judged {
    /// The verdict.
    pub verdict: Verdict,
    /// Whether the key object said yes to the quote's signature; false where it was not asked.
    pub signed: bool,
    /// The boot that the quote signs, where the verdict is a pass.
    pub boot: Option<Boot>,
}
