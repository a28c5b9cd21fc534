//! A history of its own, and what it says at each moment.

mod closes;
mod endings;
mod installs;
mod polls;
mod releases;

ghost use Rattle.std.specs.Prelude.{◌≡◌, ◌↔◌, ◌≤◌, ◌<◌, ◌+◌, [], IsTrue, IfOk, IfErr, IfSome, Some, None, IsSome, is_some, length, slice_get};
ghost use Rattle.std.specs.Option.{option_copied};
ghost use Rattle.kl_history.specs.Records.{own, is_open};
ghost use Rattle.std.specs.BTreeMap.{btree_map_len};
ghost use Rattle.kl_history.specs.LookBacks.{installed};
ghost use Rattle.kl_history.specs.States.{is_current};
ghost use Rattle.kl_history.specs.Legal.{Legal, agents, HasRoom, HasBytes};
ghost use Rattle.kl_core.specs.Books.{past, with_marks};
ghost use Rattle.kl_core.specs.Endings.{IsLive};
ghost use Rattle.kl_core.specs.States.{StateAnswers};
ghost use Rattle.kl_core.specs.Picks.{PickAnswers};
ghost use Rattle.kl_core.specs.Notices.{NoticeAnswers, MarkAnswers, marks_of};
ghost use Rattle.kl_core.specs.Inner.Keeping.{IsEntry, HasEntry, HasOpening, terms_at};
ghost use Rattle.kl_core.specs.Inner.Bars.{IsBarred, Lacks};

use crate::refusal::Refusal;
use kl_agents::{Entry, Handed, Opening, Target, first_due, kept};
use kl_appraise::SharedTerms;
use kl_history::Record;
use kl_notice::{Notice, Outbox};
use kl_policy::Memory;
use kl_states::{AgentId, State};
use std::alloc::Global;
use std::collections::BTreeMap;
use std::marker::Model;
use std::mem::size_of;

/// The most records that a journal has, the end of each open poll and release among them.
const MOST_RECORDS: usize = 1_000_000;

/// The most bytes that a journal weighs, the evidence of each open poll among them.
const MOST_BYTES: u64 = 1_073_741_824;

/// The most bytes that the evidence of one poll has.
const POLL_BYTES: u64 = 16_777_216;

/// The most agents that are installed.
const MOST_AGENTS: usize = 1_024;

// What a record costs, in bytes.
const _: () = prove!(size_of::<Record>() == 184);

/// A history, what it says at each moment, and the notices that it makes. Contracts see it as its records, and how many of
/// the notices are delivered.
#[derive(Drop)]
pub struct Book {
    records: Vec<Record>,
    agents: BTreeMap<AgentId, Entry>,
    polls: BTreeMap<u64, Opening>,
    drawn: u64,
    begun: u64,
    weight: u64,
    outbox: Outbox,
    releases: BTreeMap<u64, Handed>,
    made: u64,
    reached: BTreeMap<Target, bool>,
}

impl Model for Book {
    ghost use Rattle.std.specs.Prelude.{vec_capacity};
    ghost use Rattle.std.specs.BTreeMap.{btree_map_len};
    ghost use Rattle.std.specs.Coded.{codes};
    ghost use Rattle.kl_digests.specs.Digests.{digest_map_code};
    ghost use Rattle.kl_history.specs.Records.{past_of};
    ghost use Rattle.kl_core.specs.Books.{BookFields};
    ghost use Rattle.kl_core.specs.Inner.Keeping.{IsBook};
    ghost use Rattle.kl_core.specs.Inner.Failing.{IsTold};
    ghost use Rattle.kl_core.specs.Inner.Handing.{IsHanding};

    ghost Value = { BookFields };

    ghost coded = { Prim.hlevel (codes, digest_map_code) };

    ghost view = { λ b. record { history = b.records.items; marks = b.outbox.marks } };

    ghost invariant = { λ b.
        IsBook b.records.items (past_of b.records.items) b.agents b.polls b.drawn b.begun b.weight (vec_capacity b.records) (btree_map_len b.releases)
        × IsTold (past_of b.records.items) b.outbox b.polls (btree_map_len b.releases)
        × IsHanding b.records.items (past_of b.records.items) b.agents b.releases b.reached b.drawn b.made };
}

impl Book {
    /// An empty history.
    ///
    /// # Errors
    /// `Memory` where memory runs out.
    pub fn new(alloc: Global) -> Result<Book, Memory>
        ensures records { IfOk result (λ book. book.history ≡ []) }
        ensures marks { IfOk result (λ book. book.marks ≡ 0) }
    {
        Ok(Book {
            records: Vec::new(alloc),
            agents: BTreeMap::new(alloc),
            polls: BTreeMap::new(alloc),
            drawn: 0,
            begun: 0,
            weight: 0,
            outbox: Outbox::new(alloc)?,
            releases: BTreeMap::new(alloc),
            made: 0,
            reached: BTreeMap::new(alloc),
        })
    }

    /// How many records it has.
    pub fn len(&self) -> u64
        ensures count { result ≡ length self.now.history }
        ensures legal { Legal self.now.history }
    {
        self.records.len() as u64
    }

    /// The record at a place, from 0; None where the history is not that long.
    pub fn record(&self, place: u64) -> Option<&Record>
        ensures { option_copied result ≡ slice_get self.now.history place }
    {
        match usize::try_from(place) {
            Ok(place) => self.records.get(place),
            Err(_) => None,
        }
    }

    /// How an agent stands, None where no such agent is installed.
    pub fn state(&self, agent: &AgentId) -> Option<State>
        ensures { StateAnswers agent.now result (past self.now) }
    {
        match self.agents.get(agent) {
            Some(entry) => Some(State {
                op: entry.op(),
                generation: entry.generation,
                accepted: entry.accepted,
            }),
            None => None,
        }
    }

    /// The agent that is polled next at a moment, in milliseconds, None where none waits. Of the agents that may be polled and
    /// are due it is the one that is due longest, and of these the first by name.
    pub fn pick(&self, now: u64) -> Option<AgentId>
        ensures { PickAnswers now result (past self.now) }
    {
        first_due(&self.agents, &self.polls, now)
    }

    /// The first notice that is not delivered, None where all are.
    pub fn next_notice(&self) -> Option<Notice>
        ensures { NoticeAnswers result self.now }
    {
        self.outbox.next()
    }

    /// Marks the first notice that is not delivered as delivered, where it has this number, and answers whether it has.
    pub fn mark_delivered(&mut self, number: u64) -> bool
        ensures answer { MarkAnswers number result self.old }
        ensures marks { self.new ≡ with_marks (marks_of result) self.old }
    {
        self.outbox.mark_delivered(number)
    }

    /// Whether an agent is installed.
    fn has(&self, agent: &AgentId) -> bool
        ensures { result ≡ is_some (installed (own (past self.now) agent.now)) }
    {
        self.agents.contains_key(agent)
    }

    /// What is kept of an agent, None where it is not installed.
    fn entry(&self, agent: &AgentId) -> Option<Entry>
        ensures { HasEntry self.now.history (past self.now) agent.now result }
    {
        kept(&self.agents, agent)
    }

    /// Refuses an agent that is not installed, or not live.
    fn check_live(&self, agent: &AgentId) -> Result<(), Refusal>
        ensures live { IfOk result (λ _. IsLive (past self.now) agent.now) }
        ensures barred { IfErr result (λ why. IsBarred (past self.now) agent.now why) }
    {
        match self.entry(agent) {
            Some(entry) => match entry.end {
                Some(op) => Err(Refusal::WrongState(op)),
                None => Ok(()),
            },
            None => Err(Refusal::NoAgent),
        }
    }

    /// What is kept of an agent that is live and installed with this generation.
    fn current_entry(&self, agent: &AgentId, generation: u64) -> Option<Entry>
        ensures current { is_some result ≡ is_current (own (past self.now) agent.now) generation }
        ensures entry { IfSome result (λ e. IsEntry self.now.history (past self.now) agent.now e) }
        ensures live { IfSome result (λ e. e.end ≡ None) }
        ensures same { IfSome result (λ e. e.generation ≡ generation) }
        ensures few { IfSome result (λ e. e.losses < 5) }
    {
        match self.entry(agent) {
            Some(entry) => if entry.generation == generation && entry.end.is_none() {
                Some(entry)
            } else {
                None
            },
            None => None,
        }
    }

    /// What is kept of an open poll, None where it is not open.
    fn opening(&self, poll: u64) -> Option<Opening>
        ensures { HasOpening self.now.history (past self.now) poll result }
    {
        match self.polls.get(&poll) {
            Some(opening) => Some(*opening),
            None => None,
        }
    }

    /// Whether a poll is open.
    fn is_open(&self, poll: u64) -> bool
        ensures { result ≡ is_open (past self.now) poll }
    {
        self.opening(poll).is_some()
    }

    /// The terms that the record at a place installed.
    fn terms_at(&self, place: usize) -> &SharedTerms
        requires { IsSome (terms_at self.now.history place) }
        ensures { terms_at self.now.history place ≡ Some result.now }
    {
        match self.records.get(place) {
            Some(Record::Install { terms, .. }) => terms,
            _ => unreachable!(),
        }
    }

    /// The terms that the record at a place installed, held once more.
    fn share_terms(&self, place: usize) -> Result<SharedTerms, Refusal>
        requires { IsSome (terms_at self.now.history place) }
        ensures ok { IfOk result (λ terms. terms_at self.now.history place ≡ Some terms) }
        ensures err { IfErr result (λ why. why ≡ Refusal.Memory) }
    {
        match self.terms_at(place).share() {
            Ok(terms) => Ok(terms),
            Err(_) => Err(Refusal::Memory),
        }
    }

    /// How many agents are installed.
    fn agents_len(&self) -> usize
        ensures { result ≡ agents (past self.now) }
    {
        self.agents.len()
    }

    /// Whether the journal has room for so many records more.
    fn has_room(&self, records: usize) -> bool
        requires { records ≤ 2 }
        ensures { IsTrue result ↔ HasRoom (past self.now) records }
    {
        self.records.len() + ends(&self.polls, &self.releases) + records <= MOST_RECORDS
    }

    /// Whether the journal has room for so many bytes more.
    fn has_bytes(&self, bytes: u64) -> bool
        ensures { IsTrue result ↔ HasBytes (past self.now) bytes }
    {
        bytes <= MOST_BYTES
            && self.weight + POLL_BYTES * self.polls.len() as u64 + bytes <= MOST_BYTES
    }

    /// Why the journal has no room for so many records and bytes more, None where it has.
    fn lacks(&self, records: usize, bytes: u64) -> Option<Refusal>
        requires { records ≤ 2 }
        ensures { Lacks (past self.now) records bytes result }
    {
        if !self.has_room(records) {
            Some(Refusal::JournalRecords)
        } else if !self.has_bytes(bytes) {
            Some(Refusal::JournalBytes)
        } else {
            None
        }
    }
}

/// How many ends are to come: of open polls, and of releases that are not settled.
fn ends(polls: &BTreeMap<u64, Opening>, releases: &BTreeMap<u64, Handed>) -> usize
    ensures { result ≡ btree_map_len polls.now + btree_map_len releases.now }
{
    polls.len() + releases.len()
}
