//! Unit tests of the crates below a policy, from `kl_base` to `kl_script`: one module a crate; `common` is what several
//! of them use.
//!
//! They stand above the crates they test, since a gate that tests a crate proves its functions once more.
#![tactic(auto)]

#[cfg(test)]
mod attest;
#[cfg(test)]
mod bank;
#[cfg(test)]
mod base;
#[cfg(test)]
mod common;
#[cfg(test)]
mod entry;
#[cfg(test)]
mod io;
#[cfg(test)]
mod keys;
#[cfg(test)]
mod notice;
#[cfg(test)]
mod pcr;
#[cfg(test)]
mod quote;
#[cfg(test)]
mod registrar;
#[cfg(test)]
mod script;
#[cfg(test)]
mod shares;
#[cfg(test)]
mod states;
