//! A session of a verifier and a registrar: what the commands of a script do, one after the other, and what each
//! prints.
//!
//! A [`Session`] keeps the history of its polls in a [`Book`](kl_core::Book), the tickets of the polls and the shares of the
//! releases that are open, the moment, and the records of a [`Registrar`](kl_registrar::Registrar). It can't be let go: it is spent by
//! [`close`](Session::close), which drops what is open.
#![tactic(auto)]

mod closing;
mod drawing;
mod endings;
mod genuine;
mod installing;
mod losing;
mod naming;
mod noticing;
mod numbered;
mod polling;
mod refusals;
mod registering;
mod registrar_texts;
mod releasing;
mod replying;
mod session;
mod stop;
mod texts;
mod unique;
mod verifier;

pub use genuine::genuine_replies;
pub use naming::NoTerms;
pub use session::Session;
pub use stop::Stop;
pub use unique::{later_moments, single_steps};
