//! Threads may share policies and be handed them. That is proved here, since a thread's caller would learn of a fault
//! only far above.

use crate::Policy;

fn shared<T: Send + Sync>(_value: &T) {}

fn policies_are_shared(policy: &Policy) {
    shared(policy);
}
