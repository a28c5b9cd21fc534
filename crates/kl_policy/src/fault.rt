//! Why a policy could not be read.

ghost use Rattle.std.specs.Prelude.{Some};
ghost use Rattle.kl_policy.specs.Texts.{fault_text, limit_text};

use kl_base::Memory;
use kl_exclude::ExcludeFault;
use kl_json::JsonFault;
use std::alloc::AllocError;
use std::error::Error;
use std::fmt;

/// A bound on the size of a policy.
#[derive(Clone, Copy, Debug, PartialEq, Eq)]
pub enum Limit {
    /// At most 262,144 distinct paths.
    Paths,
    /// At most 32 exclude patterns.
    Patterns,
    /// At most 512 bytes in a pattern.
    PatternBytes,
}

impl fmt::Display for Limit {
    ghost output = { λ limit. Some (limit_text limit) };

    fn fmt<W: fmt::Write>(&self, f: &mut fmt::Formatter<W>) -> fmt::Result {
        f.write_str(match self {
            Limit::Paths => "more than 262144 paths",
            Limit::Patterns => "more than 32 patterns",
            Limit::PatternBytes => "a pattern of more than 512 bytes",
        })
    }
}

/// What is wrong with a policy's text.
#[derive(Clone, Copy, Debug, PartialEq, Eq)]
pub enum PolicyFault {
    /// What the JSON of a policy lacks.
    Json(JsonFault),
    /// The first line of a flat policy that is neither empty nor a digest, two spaces and a path.
    /// Lines are counted from 0, empty ones too.
    Line(usize),
    /// The first text that spells no digest, of a JSON policy: the place of its path in the order of bytes, and its
    /// place there, both from 0.
    BadDigest(usize, usize),
    /// The first member of a JSON policy that says what is not supported.
    Unsupported(&'static str),
    /// The policy passes a bound.
    Limit(Limit),
    /// The first exclude pattern that is none, or that is too large.
    Exclude(ExcludeFault),
    /// There was no memory left.
    Memory,
}

impl fmt::Display for PolicyFault {
    ghost output = { λ fault. Some (fault_text fault) };

    fn fmt<W: fmt::Write>(&self, f: &mut fmt::Formatter<W>) -> fmt::Result {
        match self {
            PolicyFault::Line(number) => write!(
                f,
                "line {number} is no digest, two spaces and a path"
            ),
            PolicyFault::Json(fault) => write!(f, "the policy: {fault}"),
            PolicyFault::BadDigest(path, place) => {
                write!(f, "digest {place} of path {path} is no digest")
            }
            PolicyFault::Unsupported(name) => write!(f, "{name} is not supported"),
            PolicyFault::Limit(limit) => write!(f, "the policy has {limit}"),
            PolicyFault::Exclude(fault) => write!(f, "the policy: {fault}"),
            PolicyFault::Memory => write!(f, "out of memory"),
        }
    }
}

impl Error for PolicyFault {}

impl From<Memory> for PolicyFault {
    ghost use Rattle.std.specs.Prelude.{◌≡◌};
    ghost use Rattle.kl_policy.specs.declared.fault.PolicyFault.TheVariants.{Memory as no_memory};

    ghost from_gives = { λ _ fault. fault ≡ no_memory };

    fn from(_e: Memory) -> PolicyFault {
        PolicyFault::Memory
    }
}

impl From<AllocError> for PolicyFault {
    ghost use Rattle.std.specs.Prelude.{◌≡◌};
    ghost use Rattle.kl_policy.specs.declared.fault.PolicyFault.TheVariants.{Memory as no_memory};

    ghost from_gives = { λ _ fault. fault ≡ no_memory };

    fn from(_e: AllocError) -> PolicyFault {
        PolicyFault::Memory
    }
}
