//! Unit tests of what a session is made of: `kl_appraise`, `kl_incr`, `kl_core` (in `book`), `kl_session` and `kl_console`, one
//! module a crate; `bytes` is what several of them appraise.
//!
//! They stand above the crates they test, since a gate that tests a crate proves its functions once more.
#![tactic(auto)]

#[cfg(test)]
mod appraise;
#[cfg(test)]
mod book;
#[cfg(test)]
mod bytes;
#[cfg(test)]
mod console;
#[cfg(test)]
mod incr;
#[cfg(test)]
mod session;
