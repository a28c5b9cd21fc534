//! What is kept of an accepted list.

use crate::judged::{Boot, Outcome};
use kl_bank::Digest;

/// What is kept of the measurement list that was accepted last, so that a poll may continue it.
#[derive(Clone, Copy, Debug, PartialEq, Eq)]
pub struct Kept {
    /// The boot of the machine that the list is of.
    pub boot: Boot,
    /// How many entries it has.
    pub count: u64,
    /// What PCR 10 holds after them.
    pub pcr: Digest,
}

/// What an appraisal of evidence found that may continue a kept list.
#[derive(Clone, Copy, Debug, PartialEq, Eq)]
pub struct Found {
    /// The verdict, or that the machine booted anew.
    pub outcome: Outcome,
    /// Whether the key object said yes to the quote's signature; false where it was not asked.
    pub signed: bool,
    /// What is to be kept of the list that passed, where one did.
    pub next: Option<Kept>,
}
