//! Tickets, and what becomes of them, are handed from one thread to another.

use crate::appraised::Appraised;
use crate::ticket::Ticket;

fn handed<T: Send>(_value: &T) {}

/// Is proved only where each of these types is Send.
pub(crate) fn all_handed(ticket: &Ticket, appraised: &Appraised) {
    handed(ticket);
    handed(appraised);
}
