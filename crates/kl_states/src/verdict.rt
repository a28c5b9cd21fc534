ghost use Rattle.std.specs.Prelude.{Some};
ghost use Rattle.kl_states.specs.Texts.{verdict_text, failed_text, invalid_text, attest_text, line_text, entry_text};

use std::fmt;

/// What an appraisal found of an agent's reply. Its text is `pass`, `failed` or `invalid`, and
/// what belongs to it, with one space between words.
#[derive(Clone, Copy, Debug, PartialEq, Eq)]
pub enum Verdict {
    /// The state is allowed; the quote covers this many entries of the measurement list.
    Pass(u64),
    /// The quote holds, and the state that it shows is not allowed.
    Failed(FailedCause),
    /// The reply proves nothing of the agent's state.
    Invalid(InvalidCause),
}

/// Why a state is not allowed.
#[derive(Clone, Copy, Debug, PartialEq, Eq)]
pub enum FailedCause {
    /// The value of this PCR is none of those allowed.
    Pcr(u8),
    /// The line at this place of the measurement list, from 0, is no entry.
    Line(u64, LineCause),
    /// The measurement list passes its bound.
    ListFull,
    /// No front of the measurement list gives the quoted PCR.
    Unmatched,
    /// The runtime policy does not allow the entry at this place, from 0.
    Entry(u64, EntryCause),
}

/// Why a reply proves nothing.
#[derive(Clone, Copy, Debug, PartialEq, Eq)]
pub enum InvalidCause {
    /// This part of the quote text has not its form.
    Form(u8),
    /// The PCR bank is not the one asked for.
    Bank,
    /// The attestation can't be read.
    Attest(AttestCause),
    /// The signature is not the attestation key's.
    Signature,
    /// The quote carries another nonce.
    Nonce,
    /// The quote selects other PCRs.
    Selection,
    /// The PCR values are too few or too many bytes.
    PcrLength,
    /// The PCR values have another digest than the quote says.
    PcrDigest,
    /// The quoted PCR does not bind the transport key.
    Binding,
    /// The list begins at a place that was not asked for.
    Start,
}

/// Why bytes are no attestation (a TPMS_ATTEST of a quote).
#[derive(Clone, Copy, Debug, PartialEq, Eq)]
pub enum AttestCause {
    /// The field that begins at this byte passes the end.
    Short(u64),
    /// The magic is not the TPM's.
    Magic,
    /// It is no quote.
    AttestType,
    /// The clock's safe flag is neither 0 nor 1.
    Safe,
    /// Bytes follow the end, which is at this byte.
    Tail(u64),
}

/// Why a line is no entry of the measurement list.
#[derive(Clone, Copy, Debug, PartialEq, Eq)]
pub enum LineCause {
    /// The line has too many bytes.
    TooLong,
    /// The PCR is not IMA's.
    Pcr,
    /// The template hash has not its form.
    HashText,
    /// The template is another.
    Template,
    /// The file's digest has not its form.
    Digest,
    /// The path has not its form.
    Path,
}

/// Why the runtime policy does not allow an entry.
#[derive(Clone, Copy, Debug, PartialEq, Eq)]
pub enum EntryCause {
    /// It records a violation.
    Violation,
    /// Its template hash is not that of its fields.
    Inconsistent,
    /// The policy has no such path.
    Unknown,
    /// The policy has other digests for the path.
    Digest,
}

impl fmt::Display for Verdict {
    ghost output = { λ v. Some (verdict_text v) };

    fn fmt<W: fmt::Write>(&self, f: &mut fmt::Formatter<W>) -> fmt::Result {
        match self {
            Verdict::Pass(cut) => write!(f, "pass {cut}"),
            Verdict::Failed(cause) => write!(f, "failed {cause}"),
            Verdict::Invalid(cause) => write!(f, "invalid {cause}"),
        }
    }
}

impl fmt::Display for FailedCause {
    ghost output = { λ c. Some (failed_text c) };

    fn fmt<W: fmt::Write>(&self, f: &mut fmt::Formatter<W>) -> fmt::Result {
        match self {
            FailedCause::Pcr(pcr) => write!(f, "pcr {pcr}"),
            FailedCause::Line(at, cause) => write!(f, "line {at} {cause}"),
            FailedCause::ListFull => f.write_str("listfull"),
            FailedCause::Unmatched => f.write_str("unmatched"),
            FailedCause::Entry(at, cause) => write!(f, "entry {at} {cause}"),
        }
    }
}

impl fmt::Display for InvalidCause {
    ghost output = { λ c. Some (invalid_text c) };

    fn fmt<W: fmt::Write>(&self, f: &mut fmt::Formatter<W>) -> fmt::Result {
        match self {
            InvalidCause::Form(part) => write!(f, "form {part}"),
            InvalidCause::Bank => f.write_str("bank"),
            InvalidCause::Attest(cause) => write!(f, "attest {cause}"),
            InvalidCause::Signature => f.write_str("signature"),
            InvalidCause::Nonce => f.write_str("nonce"),
            InvalidCause::Selection => f.write_str("selection"),
            InvalidCause::PcrLength => f.write_str("pcrlength"),
            InvalidCause::PcrDigest => f.write_str("pcrdigest"),
            InvalidCause::Binding => f.write_str("binding"),
            InvalidCause::Start => f.write_str("start"),
        }
    }
}

impl fmt::Display for AttestCause {
    ghost output = { λ c. Some (attest_text c) };

    fn fmt<W: fmt::Write>(&self, f: &mut fmt::Formatter<W>) -> fmt::Result {
        match self {
            AttestCause::Short(at) => write!(f, "short {at}"),
            AttestCause::Magic => f.write_str("magic"),
            AttestCause::AttestType => f.write_str("type"),
            AttestCause::Safe => f.write_str("safe"),
            AttestCause::Tail(at) => write!(f, "tail {at}"),
        }
    }
}

impl fmt::Display for LineCause {
    ghost output = { λ c. Some (line_text c) };

    fn fmt<W: fmt::Write>(&self, f: &mut fmt::Formatter<W>) -> fmt::Result {
        f.write_str(match self {
            LineCause::TooLong => "toolong",
            LineCause::Pcr => "pcr",
            LineCause::HashText => "hash",
            LineCause::Template => "template",
            LineCause::Digest => "digest",
            LineCause::Path => "path",
        })
    }
}

impl fmt::Display for EntryCause {
    ghost output = { λ c. Some (entry_text c) };

    fn fmt<W: fmt::Write>(&self, f: &mut fmt::Formatter<W>) -> fmt::Result {
        f.write_str(match self {
            EntryCause::Violation => "violation",
            EntryCause::Inconsistent => "inconsistent",
            EntryCause::Unknown => "unknown",
            EntryCause::Digest => "digest",
        })
    }
}
