//! Threads may share keys in memory and be handed them. That is proved here, since a thread's caller would learn of a
//! fault only far above.

use crate::MacKeys;

fn shared<T: Send + Sync>(_value: &T) {}

fn keys_are_shared(keys: &MacKeys) {
    shared(keys);
}
