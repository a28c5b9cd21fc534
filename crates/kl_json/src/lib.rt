//! JSON (RFC 8259) as the verifier reads and writes it: a text is read into a [`Value`], members of one kind are taken
//! out of an object by their names, and the text of a reply is written.
#![tactic(auto)]

mod fault;
mod members;
mod number;
mod owning;
mod reading;
mod reply;
mod tree;

pub use fault::JsonFault;
pub use json::{Scratch, Value as Tree};
pub use kl_base::Memory;
pub use members::{list_member, number_member, object_member, text_member};
pub use owning::owned;
pub use reading::parse;
pub use reply::reply_text;
pub use serde_json::{Map, Value};
pub use tree::tree_of;
