//! Threads may share a registrar and be handed it. That is proved here, since a thread's caller would learn of a fault
//! only far above.

use crate::Registrar;

fn shared<T: Send + Sync>(_value: &T) {}

fn registrars_are_shared(registrar: &Registrar) {
    shared(registrar);
}
