//! Unit tests of `kl_json` (in `trees`), `kl_exclude` and `kl_policy`: one module a crate.
//!
//! They stand above the crates they test, since a gate that tests a crate proves its functions once more.
#![tactic(auto)]

#[cfg(test)]
mod exclude;
#[cfg(test)]
mod policy;
#[cfg(test)]
mod trees;
