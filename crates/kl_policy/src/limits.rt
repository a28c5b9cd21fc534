//! How large a policy may be.

/// The most distinct paths.
pub const MOST_PATHS: usize = 262_144;

/// The most exclude patterns.
pub const MOST_PATTERNS: usize = 32;

/// The most bytes of a pattern.
pub const MOST_PATTERN_BYTES: usize = 512;
