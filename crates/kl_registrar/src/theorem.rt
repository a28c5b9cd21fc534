//! What the records come to.

ghost use Rattle.std.specs.Prelude.{◌≡◌, ◌↔◌, List, ℕ, Some};
ghost use Rattle.kl_registrar.specs.Calls.{Log, Registration, own};
ghost use Rattle.kl_registrar.specs.Counts.{IsCountOf};
ghost use Rattle.kl_registrar.specs.Records.{IsActive, records, registered};
ghost use Rattle.kl_registrar.specs.Activations.{WasActivated, WasRegistered};

/// An agent has a record exactly where it registered, and neither registered nor was removed since; the record is what
/// that register told.
///
/// The function does nothing: its contract is the theorem.
pub fn one_registration()
    ensures { (past : Log) (id : List ℕ) (r : Registration) → (registered (own past id) ≡ Some r) ↔ WasRegistered past id r }
{}

/// An agent's record is active exactly where a tag under the secret of its latest register was given after that
/// register, and there was no remove since.
///
/// The function does nothing: its contract is the theorem.
pub fn one_activation()
    ensures { (past : Log) (id : List ℕ) → IsActive (own past id) ↔ WasActivated past id }
{}

/// The number of records that decides whether a registrar is full is the number of agents that have one: there are so
/// many names, all different, of exactly these agents.
///
/// The function does nothing: its contract is the theorem.
pub fn one_count()
    ensures { (past : Log) → IsCountOf past (records past) }
{}
