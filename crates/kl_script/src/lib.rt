//! The commands of a script, one to a line, and the words that they are made of.
#![tactic(auto)]

mod command;
mod digits;
mod fault;
mod ids;
mod numbers;
mod pieces;
mod reading;
mod registering;
mod statics;
mod verifying;
mod words;

pub use command::{
    Activate, Add, Begin, Command, Delivery, Register, RegistrarCommand, Replace, Reply, Settle,
    VerifierCommand,
};
pub use fault::CommandFault;
pub use numbers::read_number;
pub use reading::{one_command, read_command};
pub use words::{read_field, unescape_rest, write_field};
