//! Why an entry is not allowed.

ghost use Rattle.std.specs.Prelude.{Some};
ghost use Rattle.kl_policy.specs.Texts.{why_text};

use std::fmt;

/// Why a policy does not allow an entry: the first of these that is so.
#[derive(Clone, Copy, Debug, PartialEq, Eq)]
pub enum Why {
    /// The entry is a violation, and the policy fails violations.
    Violation,
    /// The entry's template hash is not the hash of its data.
    Inconsistent,
    /// The policy has no digest for the entry's path.
    Unknown,
    /// The policy has digests for the entry's path, and the entry's is none of them.
    Digest,
}

impl fmt::Display for Why {
    ghost output = { λ why. Some (why_text why) };

    fn fmt<W: fmt::Write>(&self, f: &mut fmt::Formatter<W>) -> fmt::Result {
        f.write_str(match self {
            Why::Violation => "a violation",
            Why::Inconsistent => "the template hash is not that of the entry's data",
            Why::Unknown => "no digest is known for the path",
            Why::Digest => "the digest is none of those known for the path",
        })
    }
}
