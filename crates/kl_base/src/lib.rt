//! What every crate here shares: want of memory, the values of hexadecimal digits, and short texts that are held in
//! place.
#![tactic(auto)]

mod digits;
mod memory;
mod short;

pub use digits::{digit_value, lower_digit};
pub use memory::Memory;
pub use short::Short;
