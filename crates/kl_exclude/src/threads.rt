//! Threads may share patterns and what makes them, and be handed them. That is proved here, since a thread's caller would
//! learn of a fault only far above.

use crate::{MemMaker, Patterns, StdMaker};

fn shared<T: Send + Sync>(_value: &T) {}

fn patterns_are_shared(patterns: &Patterns) {
    shared(patterns);
}

fn makers_are_shared(standard: &StdMaker, planned: &MemMaker) {
    shared(standard);
    shared(planned);
}
