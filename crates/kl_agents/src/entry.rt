//! What a book keeps beside its records.

ghost use Rattle.std.specs.Prelude.{◌≡◌, ◌*◌, ◌^◌, ◌<◌, ◌≤◌, min};
ghost use Rattle.kl_history.specs.Notices.{has_failed};
ghost use Rattle.kl_agents.specs.Steps.{fresh, renewed, stopped, polled, lost, found, handed, is_handed, reaches_boot, settled, passed_by, is_due, live_op, op_of};
ghost use Rattle.kl_appraise.specs.Kept.{from_of};
ghost use Rattle.kl_agents.specs.Picking.{due_of};

use kl_appraise::Boot;
use kl_incr::{Kept, Outcome as Finding};
use kl_states::{AgentId, Nonce, Op, Outcome, Verdict};
use std::mem::size_of;

/// With so many losses in a row an agent has failed.
const FAILING_LOSSES: u64 = 5;

/// With so many missed deliveries in a row an agent has failed.
const FAILING_DELIVERIES: u64 = 5;

/// How long an agent waits for its next poll where none was lost, in milliseconds; each loss doubles it.
const FIRST_WAIT: u64 = 2_000;

/// What is kept of an installed agent, since it was installed.
#[derive(Clone, Copy)]
pub struct Entry {
    // What `first_due` reads of every agent stands first, so that it lies close together.
    /// Its last poll, open or not.
    pub latest: Option<Begun>,
    /// How many polls were lost in a row since the last finding.
    pub losses: u64,
    /// The state in which it is not live any more, where it is in one.
    pub end: Option<Op>,
    /// Whether its terms have a key share V.
    pub has_v: bool,
    /// Whether V has reached the boot of the pass.
    pub reached: bool,
    /// The installed generation.
    pub generation: u64,
    /// The place of the record that installed it.
    pub place: usize,
    /// The last finding, where that is a pass.
    pub pass: Option<Passed>,
    /// How many entries of its measurement list are accepted.
    pub accepted: u64,
    /// How many deliveries of V were missed in a row since the last that arrived.
    pub missed: u64,
    /// The generation with which it was added last.
    pub added: u64,
    /// Its last release since then, settled or not.
    pub handed: Option<u64>,
}

/// A poll that passed.
#[derive(Clone, Copy)]
pub struct Passed {
    /// Its number.
    pub poll: u64,
    /// The place of the record of its verdict.
    pub place: usize,
    /// The boot that its quote signs.
    pub boot: Boot,
}

/// A poll that began.
#[derive(Clone, Copy)]
pub struct Begun {
    /// Its number.
    pub poll: u64,
    /// The moment, in milliseconds.
    pub at: u64,
}

/// What an open poll was begun with.
#[derive(Clone, Copy)]
pub struct Opening {
    /// Whose poll it is.
    pub agent: AgentId,
    /// The generation that was installed.
    pub generation: u64,
    /// What the quote has to carry.
    pub nonce: Nonce,
    /// The place of the record that installed the generation.
    pub place: usize,
}

/// What a release that is not settled was made with.
#[derive(Clone, Copy)]
pub struct Handed {
    /// Whose release it is.
    pub agent: AgentId,
    /// The generation that was installed.
    pub generation: u64,
    /// The place of the record that installed the generation.
    pub place: usize,
    /// The pass that it was released on.
    pub pass: Passed,
}

/// How long an agent waits for its next poll after so many losses in a row, in milliseconds.
fn wait_after(losses: u64) -> u64
    ensures { result ≡ 2000 * 2 ^ min losses 5 }
{
    FIRST_WAIT << losses.min(FAILING_LOSSES)
}

impl Entry {
    /// What is kept of an agent that a record at this place adds.
    pub fn fresh(generation: u64, place: usize, has_v: bool) -> Entry
        ensures { result ≡ fresh generation place has_v }
    {
        Entry {
            latest: None,
            losses: 0,
            end: None,
            has_v,
            reached: false,
            generation,
            place,
            pass: None,
            accepted: 0,
            missed: 0,
            added: generation,
            handed: None,
        }
    }

    /// What is kept of the agent once a record at this place installs it once more.
    pub fn renewed(&self, generation: u64, place: usize) -> Entry
        ensures { result ≡ renewed generation place self.now }
    {
        let mut entry = Entry::fresh(generation, place, self.has_v);
        entry.added = self.added;
        entry.handed = self.handed;
        entry
    }

    /// The state of the agent.
    pub fn op(&self) -> Op
        ensures { result ≡ op_of self.now }
    {
        match self.end {
            Some(op) => op,
            None => self.live_op(),
        }
    }

    /// Whether V is due to the agent.
    fn is_due(&self) -> bool
        ensures { result ≡ is_due self.now }
    {
        self.has_v && self.pass.is_some() && !self.reached
    }

    /// The state of the agent while it is live.
    fn live_op(&self) -> Op
        ensures { result ≡ live_op self.now }
    {
        if self.is_due() {
            if self.missed == 0 {
                Op::ProvideV
            } else {
                Op::ProvideVRetry
            }
        } else if self.losses != 0 {
            Op::GetQuoteRetry
        } else if self.latest.is_some() {
            Op::GetQuote
        } else {
            Op::Start
        }
    }

    /// What is kept once the agent's tenant stopped it.
    pub fn stopped(&self) -> Entry
        ensures { result ≡ stopped self.now }
    {
        let mut entry = *self;
        entry.end = Some(Op::TenantFailed);
        entry
    }

    /// The moment from which the agent is due to be polled, in milliseconds.
    pub fn due(&self) -> u64
        ensures { result ≡ due_of self.now }
    {
        match self.latest {
            Some(begun) => begun.at.saturating_add(wait_after(self.losses)),
            None => 0,
        }
    }

    /// Whether the agent has failed.
    pub fn has_failed(&self) -> bool
        ensures { result ≡ has_failed self.now.end }
    {
        matches!(self.end, Some(Op::Failed | Op::InvalidQuote))
    }

    /// What is kept once a poll of the agent began at a moment.
    pub fn polled(&self, poll: u64, at: u64) -> Entry
        ensures { result ≡ polled poll at self.now }
    {
        let mut entry = *self;
        entry.latest = Some(Begun { poll, at });
        entry
    }

    /// What is kept after a current loss.
    pub fn lost(&self) -> Entry
        requires { self.now.losses < 5 }
        ensures { result ≡ lost self.now }
    {
        let mut entry = *self;
        entry.losses += 1;
        if entry.losses == FAILING_LOSSES {
            entry.end = Some(Op::Failed);
        }
        entry
    }

    /// What is kept after a current finding of a poll, whose record stands at this place; after a pass also what the
    /// appraisal keeps of the accepted list, and whether V has reached its boot.
    pub fn found(
        &self,
        poll: u64,
        place: usize,
        finding: Finding,
        next: &Option<Kept>,
        reached: bool,
    ) -> Entry
        ensures { result ≡ found poll place finding next.now reached self.now }
    {
        let mut entry = *self;
        entry.losses = 0;
        entry.pass = None;
        match finding {
            Finding::Verdict(Verdict::Pass(_)) => {
                entry.pass = passed_by(poll, place, next);
                entry.accepted = accepted_by(next);
                entry.reached = reached;
            },
            Finding::Verdict(Verdict::Failed(_)) => entry.end = Some(Op::Failed),
            Finding::Verdict(Verdict::Invalid(_)) => entry.end = Some(Op::InvalidQuote),
            Finding::Restart => entry.accepted = 0,
        }
        entry
    }

    /// What is kept once V was released to the agent.
    pub fn handed(&self, number: u64) -> Entry
        ensures { result ≡ handed number self.now }
    {
        let mut entry = *self;
        entry.handed = Some(number);
        entry
    }

    /// Whether a release is the agent's last since it was added.
    pub fn is_handed(&self, number: u64) -> bool
        ensures { result ≡ is_handed number self.now }
    {
        match self.handed {
            Some(last) => last == number,
            None => false,
        }
    }

    /// Whether V, once this release of the agent arrives, has reached the boot of the last pass.
    pub fn reaches_boot(&self, number: u64, handed: &Handed) -> bool
        ensures { result ≡ reaches_boot number handed.now self.now }
    {
        match self.pass {
            Some(pass) => self.is_handed(number) && pass.boot == handed.pass.boot,
            None => false,
        }
    }

    /// What is kept once a release of the agent was settled.
    pub fn settled(&self, outcome: Outcome, current: bool, hit: bool) -> Entry
        requires { self.now.missed ≤ 5 }
        ensures { result ≡ settled outcome current hit self.now }
    {
        let mut entry = *self;
        match outcome {
            Outcome::Arrived => {
                entry.missed = if current { 0 } else { entry.missed };
                entry.reached = entry.reached || hit;
            },
            Outcome::Missed => if current {
                entry.missed += 1;
                if entry.missed == FAILING_DELIVERIES {
                    entry.end = Some(Op::Failed);
                }
            },
            Outcome::Withdrawn(_) => {},
        }
        entry
    }
}

/// The pass of a poll, whose record stands at this place, by what is kept of the list that it accepts.
fn passed_by(poll: u64, place: usize, next: &Option<Kept>) -> Option<Passed>
    ensures { result ≡ passed_by poll place next.now }
{
    match next {
        Some(kept) => Some(Passed {
            poll,
            place,
            boot: kept.boot,
        }),
        None => None,
    }
}

/// How many entries are accepted by what is kept of an accepted list.
fn accepted_by(kept: &Option<Kept>) -> u64
    ensures { result ≡ from_of kept.now }
{
    match kept {
        Some(kept) => kept.count,
        None => 0,
    }
}

// What an agent, an open poll and an open release cost a map, in bytes, with their names and numbers.
const _: () = prove!(size_of::<AgentId>() + size_of::<Entry>() == 200);

const _: () = prove!(size_of::<u64>() + size_of::<Opening>() == 168);

const _: () = prove!(size_of::<u64>() + size_of::<Handed>() == 120);
