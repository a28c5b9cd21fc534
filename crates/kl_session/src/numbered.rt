//! What is kept by its number: the tickets of the open polls, and the shares of the open releases.

ghost use Rattle.std.specs.Prelude.{◌≡◌, ◌≢◌, ◌<◌, ℕ, All, IfSome, IfNone, length, slice_index_or};
ghost use Rattle.kl_session.specs.Inner.Tickets.{Takes};

use kl_core::Share;
use kl_incr::Ticket;

/// What has a number among those that it is kept with.
pub trait Numbered {
    /// Its number.
    ghost number_of: { Self → ℕ };

    /// Its number.
    fn own_number(&self) -> u64
        ensures { result ≡ number_of self.now };
}

impl Numbered for Ticket {
    ghost number_of = { λ t. t.poll };

    fn own_number(&self) -> u64 {
        self.poll()
    }
}

impl Numbered for Share {
    ghost number_of = { λ s. s.number };

    fn own_number(&self) -> u64 {
        self.number()
    }
}

/// The place of what has a number.
fn place_of<T: Numbered>(kept: &[T], number: u64) -> Option<usize>
    ensures inside { IfSome result (λ place. place < length kept.now) }
    ensures some { IfSome result (λ place. (other : T) → T.number_of (slice_index_or kept.now place other) ≡ number) }
    ensures none { IfNone result (All (λ t. T.number_of t ≢ number) kept.now) }
{
    for (place, one) in kept.iter().enumerate() {
        if one.own_number() == number {
            return Some(place);
        }
    }
    None
}

/// Takes out what has a number.
pub fn take_numbered<T: Numbered>(kept: &mut Vec<T>, number: u64) -> Option<T>
    ensures some { IfSome result (λ taken. Takes kept.old.items taken kept.new.items) }
    ensures number { IfSome result (λ taken. T.number_of taken ≡ number) }
    ensures none { IfNone result (All (λ t. T.number_of t ≢ number) kept.old.items) }
    ensures same { IfNone result (kept.new.items ≡ kept.old.items) }
{
    match place_of(kept.as_slice(), number) {
        Some(place) => Some(kept.remove(place)),
        None => None,
    }
}
