//! What lies outside: where bytes come from and go to, what is drawn, and what time it is.
//!
//! Code above is generic over [`Source`], [`Sink`], [`Words`] and [`Clock`], and so proved once for objects in memory and
//! for those of std. The first three count each call and each fault that they met, and answer a fault only in a call in
//! which they counted one. What an object gives or holds is told where it is known: the forms in memory tell it, and the
//! adapters tell what std does, which is nothing for a file, a pipe, a socket, random bytes or the time.
#![tactic(auto)]

mod clock;
mod counter;
mod fault;
mod memory_clock;
mod memory_sink;
mod memory_source;
mod memory_words;
mod script;
mod sink;
mod source;
mod std_clock;
mod std_sink;
mod std_source;
mod std_words;
mod stock;
mod threads;
mod words;

pub use clock::Clock;
pub use counter::Counter;
pub use fault::Failed;
pub use kl_base::Memory;
pub use memory_clock::MemClock;
pub use memory_sink::MemSink;
pub use memory_source::MemSource;
pub use memory_words::MemWords;
pub use script::Script;
pub use sink::Sink;
pub use source::Source;
pub use std_clock::StdClock;
pub use std_sink::StdSink;
pub use std_source::StdSource;
pub use std_words::StdWords;
pub use words::{Words, WordsError};
