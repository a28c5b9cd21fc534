//! The forms in which a runtime policy is written.

/// The form of a policy's text.
#[derive(Clone, Copy, Debug, PartialEq, Eq)]
pub enum PolicyKind {
    /// A flat allowlist: one digest and one path a line.
    Flat,
    /// Keylime's JSON runtime policy.
    Json,
}
