//! What agents are installed and polled at.

ghost use Rattle.kl_history.specs.Records.{past_of};
ghost use Rattle.kl_core.specs.Desk.{Told, Calls, nothing, Marks};
ghost use Rattle.kl_core.specs.Tickets.{IsGiven};
ghost use Rattle.kl_core.specs.Installs.{Adds, add_makes, Replaces, replace_makes, Reactivates, reactivate_makes};
ghost use Rattle.kl_core.specs.Endings.{Stops, stop_makes, Removes, remove_makes};
ghost use Rattle.kl_core.specs.Begins.{BeginAnswers, begin_makes};
ghost use Rattle.kl_core.specs.Closes.{OwnFinishes, Finishes, finish_makes, OwnLoses, Loses, lose_makes, OwnDrops, Drops, drop_makes};
ghost use Rattle.kl_core.specs.Shares.{IsGivenShare, Releases, release_makes, OwnSettles, Settles, settle_makes};
ghost use Rattle.kl_core.specs.States.{StateAnswers};
ghost use Rattle.kl_core.specs.Picks.{PickAnswers};
ghost use Rattle.kl_core.specs.Notices.{NoticeAnswers, MarkAnswers, marks_of};

use crate::closed::Closed;
use crate::refusal::Refusal;
use crate::settlement::Settlement;
use crate::share::Share;
use kl_appraise::Terms;
use kl_incr::{Appraised, Ticket};
use kl_notice::Notice;
use kl_policy::Policy;
use kl_states::{AgentId, DropWhy, LostWhy, Nonce, Outcome, State};
use std::alloc::Global;

/// A desk, over a history of its own or over one that others add to as well.
///
/// Each call finds some records, which begin with all that was seen before, and puts its own behind them, if it
/// makes one. Its answer is of the records that it found. The history is legal after each call. A refused call
/// makes no record and hands back what it took.
pub trait Desk {
    /// The history as it is known here, the places of the records that calls here made, and how many notices are known here to
    /// be delivered.
    ghost told: { Self → Told };

    /// Installs an agent, and answers its generation.
    ///
    /// # Errors
    /// `Exists`, `AgentsFull`, `JournalRecords`, `JournalBytes` or `Memory`, with the terms.
    fn add(&mut self, alloc: Global, agent: AgentId, terms: Terms) -> Result<u64, (Refusal, Terms)>
        ensures event { Calls (told self.old) (told self.new) (add_makes agent terms result) (Adds agent terms result) };

    /// Installs an agent under a new runtime policy, and answers the generation. The other terms stay.
    ///
    /// # Errors
    /// `NoAgent`, `JournalRecords`, `JournalBytes` or `Memory`, with the policy.
    fn replace(
        &mut self,
        alloc: Global,
        agent: &AgentId,
        policy: Policy,
    ) -> Result<u64, (Refusal, Policy)>
        ensures event { Calls (told self.old) (told self.new) (replace_makes agent.now policy result) (Replaces agent.now policy result) };

    /// Makes an agent live again under the terms that it has, and answers the generation.
    ///
    /// # Errors
    /// `NoAgent`, `JournalRecords` or `Memory`.
    fn reactivate(&mut self, alloc: Global, agent: &AgentId) -> Result<u64, Refusal>
        ensures event { Calls (told self.old) (told self.new) (reactivate_makes agent.now result) (Reactivates agent.now result) };

    /// Stops an agent.
    ///
    /// # Errors
    /// `NoAgent`, `WrongState` where it is not live, `JournalRecords` or `Memory`.
    fn stop(&mut self, alloc: Global, agent: &AgentId) -> Result<(), Refusal>
        ensures event { Calls (told self.old) (told self.new) (stop_makes agent.now result) (Stops agent.now result) };

    /// Removes an agent. Its open polls stay open.
    ///
    /// # Errors
    /// `NoAgent`, `JournalRecords` or `Memory`.
    fn remove(&mut self, alloc: Global, agent: &AgentId) -> Result<(), Refusal>
        ensures event { Calls (told self.old) (told self.new) (remove_makes agent.now result) (Removes agent.now result) };

    /// Begins a poll of an agent at a moment, in milliseconds.
    ///
    /// # Errors
    /// `NoAgent`, `WrongState` where it is not live, `Busy` where a poll of its installed generation is open,
    /// `JournalRecords`, `JournalBytes` or `Memory`.
    fn begin(
        &mut self,
        alloc: Global,
        agent: &AgentId,
        nonce: Nonce,
        now: u64,
    ) -> Result<Ticket, Refusal>
        ensures event { Calls (told self.old) (told self.new) (begin_makes now result) (BeginAnswers agent.now nonce now result) };

    /// Closes a poll by what the appraisal of its evidence found. It takes no memory.
    ///
    /// # Errors
    /// `NoPoll` where the ticket is not the one that the begin of an open poll gave, compared by value.
    fn finish(&mut self, done: Appraised) -> Result<Closed, (Refusal, Appraised)>
        ensures event { Calls (told self.old) (told self.new) (finish_makes done result) (Finishes done result) };

    /// Closes a poll of which no evidence came back. It takes no memory.
    ///
    /// # Errors
    /// `NoPoll` where the ticket is not the one that the begin of an open poll gave, compared by value.
    fn lose(&mut self, ticket: Ticket, why: LostWhy) -> Result<Closed, (Refusal, Ticket)>
        ensures event { Calls (told self.old) (told self.new) (lose_makes ticket why result) (Loses ticket why result) };

    /// Closes a poll without counting it for or against its agent. It takes no memory.
    ///
    /// # Errors
    /// `NoPoll` where the ticket is not the one that the begin of an open poll gave, compared by value.
    fn drop_poll(&mut self, ticket: Ticket, why: DropWhy) -> Result<Closed, (Refusal, Ticket)>
        ensures event { Calls (told self.old) (told self.new) (drop_makes ticket why result) (Drops ticket why result) };

    /// [`finish`](Desk::finish) with a ticket that was given at this desk: nothing is compared.
    ///
    /// # Errors
    /// `NoPoll` where the poll is not open any more.
    fn finish_own(&mut self, done: Appraised) -> Result<Closed, (Refusal, Appraised)>
        requires given { IsGiven (past_of (told self.old).seen) done.ticket }
        ensures event { Calls (told self.old) (told self.new) (finish_makes done result) (OwnFinishes done result) };

    /// [`lose`](Desk::lose) with a ticket that was given at this desk: nothing is compared.
    ///
    /// # Errors
    /// `NoPoll` where the poll is not open any more.
    fn lose_own(&mut self, ticket: Ticket, why: LostWhy) -> Result<Closed, (Refusal, Ticket)>
        requires given { IsGiven (past_of (told self.old).seen) ticket }
        ensures event { Calls (told self.old) (told self.new) (lose_makes ticket why result) (OwnLoses ticket why result) };

    /// [`drop_poll`](Desk::drop_poll) with a ticket that was given at this desk: nothing is compared.
    ///
    /// # Errors
    /// `NoPoll` where the poll is not open any more.
    fn drop_own(&mut self, ticket: Ticket, why: DropWhy) -> Result<Closed, (Refusal, Ticket)>
        requires given { IsGiven (past_of (told self.old).seen) ticket }
        ensures event { Calls (told self.old) (told self.new) (drop_makes ticket why result) (OwnDrops ticket why result) };

    /// Releases V of an agent on its last pass.
    ///
    /// # Errors
    /// `NoAgent`, `WrongState` where V is not owed to it, `Busy` where a release of it is not settled that was made since it was
    /// added, `JournalRecords` or `Memory`.
    fn release(&mut self, alloc: Global, agent: &AgentId) -> Result<Share, Refusal>
        ensures event { Calls (told self.old) (told self.new) (release_makes result) (Releases agent.now result) };

    /// Settles a release. It takes no memory.
    ///
    /// # Errors
    /// `NoRelease` where the share is not the one that a release gave that is not settled, compared by value.
    fn settle(&mut self, share: Share, outcome: Outcome) -> Result<Settlement, (Refusal, Share)>
        ensures event { Calls (told self.old) (told self.new) (settle_makes share outcome result) (Settles share outcome result) };

    /// [`settle`](Desk::settle) with a share that was given at this desk: nothing is compared.
    ///
    /// # Errors
    /// `NoRelease` where the release is settled.
    fn settle_own(&mut self, share: Share, outcome: Outcome) -> Result<Settlement, (Refusal, Share)>
        requires given { IsGivenShare (past_of (told self.old).seen) share }
        ensures event { Calls (told self.old) (told self.new) (settle_makes share outcome result) (OwnSettles share outcome result) };

    /// How an agent stands, None where no such agent is installed. It takes no memory.
    fn state(&mut self, agent: &AgentId) -> Option<State>
        ensures event { Calls (told self.old) (told self.new) nothing (StateAnswers agent.now result) };

    /// The agent that is polled next at a moment, in milliseconds, None where none waits. Of the agents that may be polled and
    /// are due it is the one that is due longest, and of these the first by name. It takes no memory.
    fn pick(&mut self, now: u64) -> Option<AgentId>
        ensures event { Calls (told self.old) (told self.new) nothing (PickAnswers now result) };

    /// The first notice that is not delivered, None where all are. It takes no memory.
    fn next_notice(&mut self) -> Option<Notice>
        ensures event { Marks (told self.old) (told self.new) 0 (NoticeAnswers result) };

    /// Marks the first notice that is not delivered as delivered, where it has this number, and answers whether it has. It
    /// takes no memory.
    fn mark_delivered(&mut self, number: u64) -> bool
        ensures event { Marks (told self.old) (told self.new) (marks_of result) (MarkAnswers number result) };
}
