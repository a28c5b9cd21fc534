//! What follows of how a release is settled.

ghost use Rattle.std.specs.Prelude.{◌≡◌, ◌≤◌, true, IfSome, Some};
ghost use Rattle.std.specs.Option.{option_map};
ghost use Rattle.kl_agents.specs.Reached.{has_place};
ghost use Rattle.kl_agents.specs.Settling.{settled_by, arrival, MarkedIf, only_if, settle_why};

use crate::entry::{Entry, Handed};
use crate::reached::{Target, mark};
use kl_notice::FailWhy;
use kl_states::Outcome;
use std::collections::BTreeMap;

/// What is kept of an agent once a release of it was settled, current or not.
pub fn settled_if(
    entry: Option<Entry>,
    number: u64,
    handed: &Handed,
    outcome: Outcome,
    current: bool,
) -> Option<Entry>
    requires { IfSome entry (λ e. e.missed ≤ 5) }
    ensures { result ≡ option_map (settled_by number handed.now outcome current) entry }
{
    match entry {
        Some(entry) => Some(entry.settled(outcome, current, entry.reaches_boot(number, handed))),
        None => None,
    }
}

/// The boot that V reaches by how a release is settled, where that was made since its agent was added.
pub fn arrival(
    entry: Option<Entry>,
    number: u64,
    handed: &Handed,
    outcome: Outcome,
) -> Option<Target>
    ensures { result ≡ arrival number handed.now outcome entry }
{
    match (entry, outcome) {
        (Some(entry), Outcome::Arrived) => if entry.is_handed(number) {
            Some(Target::new(handed.agent, entry.added, handed.pass.boot))
        } else {
            None
        },
        _ => None,
    }
}

/// Marks a boot as reached, where there is one.
pub fn mark_if(reached: &mut BTreeMap<Target, bool>, target: Option<Target>)
    requires { IfSome target (λ t. has_place reached.old t ≡ true) }
    ensures { MarkedIf reached.old reached.new target }
{
    match target {
        Some(target) => mark(reached, &target),
        None => {},
    }
}

/// What is kept of an agent, where what changed it is current.
pub fn only_if(current: bool, entry: Option<Entry>) -> Option<Entry>
    ensures { result ≡ only_if current entry }
{
    if current { entry } else { None }
}

/// Why an agent fails, where it fails by how a release is settled.
pub fn settle_why(outcome: Outcome) -> Option<FailWhy>
    ensures { result ≡ settle_why outcome }
{
    match outcome {
        Outcome::Missed => Some(FailWhy::Undelivered),
        _ => None,
    }
}
