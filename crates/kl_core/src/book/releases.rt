//! V is released, and what was released is settled.

ghost use Rattle.std.specs.Prelude.{◌≡◌, ◌↔◌, ◌≤◌, ◌∷◌, [], ℕ, true, false, IsTrue, IfOk, IfErr, IfSome, IfNone, IsSome, Some, None, OnOk, OnErr, ◌+◌, length, vec_capacity, option_and_then};
ghost use Rattle.std.specs.Option.{option_map};
ghost use Rattle.std.specs.BTreeMap.{IsUnchanged};
ghost use Rattle.kl_history.specs.declared.record.Record.TheVariants.{Settled as SettledRecord};
ghost use Rattle.kl_history.specs.Records.{own, is_unsettled, releases_made};
ghost use Rattle.kl_history.specs.LookBacks.{installed};
ghost use Rattle.kl_history.specs.States.{HasReached};
ghost use Rattle.kl_history.specs.Legal.{HasRoom};
ghost use Rattle.kl_core.specs.Books.{past, with_more};
ghost use Rattle.kl_core.specs.Shares.{IsGivenShare, IsOpenShare, MayHand, RefusesRelease, Releases, release_makes, IsSettlement, OwnSettles, Settles, settle_makes};
ghost use Rattle.kl_core.specs.Inner.Keeping.{Tells, terms_at};
ghost use Rattle.kl_core.specs.Inner.Handing.{evidence_at, IsReady, release_with, HasHanded, v_of, public_of, contact_of, HasParts};
ghost use Rattle.kl_agents.specs.Reached.{Reserves};

use super::{Book, ends};
use crate::refusal::Refusal;
use crate::settlement::Settlement;
use crate::share::Share;
use kl_agents::{
    Entry, Handed, Target, arrival, is_marked, kept, kept_at, mark_if, note, note_if, only_if,
    op_now, post_if, put_one, reserve_mark, settle_why, settled_if, take_one,
};
use kl_appraise::Boot;
use kl_history::Record;
use kl_notice::Outbox;
use kl_policy::Memory;
use kl_quote::Evidence;
use kl_states::{AgentId, Outcome, Text, may_release};
use std::alloc::Global;
use std::collections::BTreeMap;

impl Book {
    /// Whether V has reached a boot of an agent, since the agent was added.
    fn has_reached(&self, agent: &AgentId, boot: Boot) -> bool
        ensures { IsSome (installed (own (past self.now) agent.now)) → Tells result (HasReached (own (past self.now) agent.now) boot) }
    {
        match self.agents.get(agent) {
            Some(entry) => is_marked(&self.reached, &Target::new(*agent, entry.added, boot)),
            None => false,
        }
    }

    /// The same of the boot that a pass signs, where there is one.
    pub(super) fn reaches(&self, agent: &AgentId, boot: Option<Boot>) -> bool
        ensures { IsSome (installed (own (past self.now) agent.now)) → IfSome boot (λ b. Tells result (HasReached (own (past self.now) agent.now) b)) }
    {
        match boot {
            Some(boot) => self.has_reached(agent, boot),
            None => false,
        }
    }

    /// What is kept of a release that is not settled, None where it is settled or was not made.
    fn handing(&self, number: u64) -> Option<Handed>
        ensures { HasHanded self.now.history (past self.now) number result }
    {
        match self.releases.get(&number) {
            Some(handed) => Some(*handed),
            None => None,
        }
    }

    /// Whether a release was made and is not settled.
    fn is_unsettled(&self, number: u64) -> bool
        ensures { result ≡ is_unsettled (past self.now) number }
    {
        self.handing(number).is_some()
    }

    /// The last release of an agent since it was added, where that is not settled.
    fn awaited(&self, entry: &Entry) -> Option<u64>
        ensures some { IfSome result (λ n. entry.now.handed ≡ Some n) }
        ensures unsettled { IfSome result (λ n. is_unsettled (past self.now) n ≡ true) }
        ensures none { IfNone result ((n : ℕ) → entry.now.handed ≡ Some n → is_unsettled (past self.now) n ≡ false) }
    {
        match entry.handed {
            Some(number) => if self.is_unsettled(number) {
                Some(number)
            } else {
                None
            },
            None => None,
        }
    }

    /// The evidence of the verdict that the record at a place tells.
    fn evidence_at(&self, place: usize) -> &Evidence
        requires { IsSome (evidence_at self.now.history place) }
        ensures { evidence_at self.now.history place ≡ Some result.now }
    {
        match self.records.get(place) {
            Some(Record::Verdict { evidence, .. }) => evidence,
            _ => unreachable!(),
        }
    }

    /// Refuses an agent to which V may not be released.
    fn check_release(&self, agent: &AgentId) -> Result<(), Refusal>
        ensures may { IfOk result (λ _. MayHand (past self.now) agent.now) }
        ensures room { IfOk result (λ _. HasRoom (past self.now) 2) }
        ensures err { IfErr result (λ why. RefusesRelease (past self.now) agent.now why) }
    {
        let entry = match kept(&self.agents, agent) {
            Some(entry) => entry,
            None => return Err(Refusal::NoAgent),
        };
        let op = entry.op();
        if !may_release(op) {
            return Err(Refusal::WrongState(op));
        }
        match self.awaited(&entry) {
            Some(number) => return Err(Refusal::Busy(number)),
            None => {},
        }
        if self.has_room(2) {
            Ok(())
        } else {
            Err(Refusal::JournalRecords)
        }
    }

    /// V and the contact of the terms that the record at a place installed, and the public key of the evidence at another.
    fn parts(&self, alloc: Global, handed: &Handed) -> Result<([u8; 32], Text, Text), Refusal>
        requires terms { IsSome (option_and_then v_of (terms_at self.now.history handed.now.place)) }
        requires evidence { IsSome (evidence_at self.now.history handed.now.pass.place) }
        ensures v { IfOk result (λ p. option_and_then v_of (terms_at self.now.history handed.now.place) ≡ Some p.0) }
        ensures public { IfOk result (λ p. option_map public_of (evidence_at self.now.history handed.now.pass.place) ≡ Some p.1) }
        ensures contact { IfOk result (λ p. option_map contact_of (terms_at self.now.history handed.now.place) ≡ Some p.2) }
        ensures err { IfErr result (λ why. why ≡ Refusal.Memory) }
    {
        let terms = self.terms_at(handed.place).terms();
        let v = match terms.v() {
            Some(v) => v,
            None => unreachable!(),
        };
        let evidence = self.evidence_at(handed.pass.place);
        match (
            String::from_str(alloc, evidence.public.as_str()),
            String::from_str(alloc, terms.contact()),
        ) {
            (Ok(public), Ok(contact)) => Ok((v, Text::new(public), Text::new(contact))),
            _ => Err(Refusal::Memory),
        }
    }

    /// What a release of an agent is made with.
    fn ready(&self, agent: &AgentId) -> Handed
        requires { MayHand (past self.now) agent.now }
        ensures agent { result.agent ≡ agent.now }
        ensures ready { IsReady self.now.history (past self.now) result }
    {
        let entry = kept_at(&self.agents, agent);
        let pass = match entry.pass {
            Some(pass) => pass,
            None => unreachable!(),
        };
        Handed {
            agent: *agent,
            generation: entry.generation,
            place: entry.place,
            pass,
        }
    }

    /// Makes a release, and answers its number.
    ///
    /// # Errors
    /// `Memory` where memory runs out, and then nothing changes.
    fn hand(&mut self, alloc: Global, handed: Handed) -> Result<u64, Refusal>
        requires ready { IsReady self.old.history (past self.old) handed }
        requires room { HasRoom (past self.old) 2 }
        ensures number { IfOk result (λ n. n ≡ releases_made (past self.old) + 1) }
        ensures history { IfOk result (λ n. self.new ≡ with_more (release_with n handed ∷ []) self.old) }
        ensures err { IfErr result (λ why. why ≡ Refusal.Memory) }
        ensures same { OnErr result (self.new ≡ self.old) }
    {
        let entry = kept_at(&self.agents, &handed.agent);
        let target = Target::new(handed.agent, entry.added, handed.pass.boot);
        let ends = ends(&self.polls, &self.releases);
        match reserve_release(
            alloc,
            &mut self.records,
            &mut self.outbox,
            &mut self.reached,
            ends,
            target,
        ) {
            Ok(()) => {},
            Err(_) => return Err(Refusal::Memory),
        }
        let number = self.made + 1;
        match put_one(&mut self.releases, number, handed) {
            Ok(()) => {},
            Err(_) => return Err(Refusal::Memory),
        }
        self.made = number;
        note(&mut self.agents, &handed.agent, entry.handed(number));
        self.records.push_reserved(Record::Release {
            number,
            agent: handed.agent,
            generation: handed.generation,
            poll: handed.pass.poll,
        });
        Ok(number)
    }

    /// Releases V of an agent on its last pass.
    ///
    /// # Errors
    /// `NoAgent`, `WrongState` where V is not owed to it, `Busy` where a release of it is not settled that was made since it was
    /// added, `JournalRecords` or `Memory`.
    pub fn release(&mut self, alloc: Global, agent: &AgentId) -> Result<Share, Refusal>
        ensures answer { Releases agent.now result (past self.old) }
        ensures history { self.new ≡ with_more (release_makes result (past self.old)) self.old }
    {
        self.check_release(agent)?;
        let handed = self.ready(agent);
        let (v, public, contact) = self.parts(alloc, &handed)?;
        let number = self.hand(alloc, handed)?;
        Ok(Share::new(
            number,
            handed.agent,
            handed.generation,
            handed.pass.poll,
            v,
            public,
            contact,
        ))
    }

    /// Settles a release that is not settled.
    fn settle_open(&mut self, share: Share, outcome: Outcome) -> Settlement
        requires given { IsGivenShare (past self.old) share }
        requires unsettled { is_unsettled (past self.old) share.number ≡ true }
        ensures answer { IsSettlement (past self.old) share outcome result }
        ensures history { self.new ≡ with_more (SettledRecord share.number outcome result.current ∷ []) self.old }
    {
        let (number, agent) = (share.number(), share.agent());
        let current = self.current_entry(&agent, share.generation()).is_some();
        share.discard();
        let handed = match self.handing(number) {
            Some(handed) => handed,
            None => unreachable!(),
        };
        let entry = kept(&self.agents, &agent);
        let noted = settled_if(entry, number, &handed, outcome, current);
        note_if(&mut self.agents, &agent, noted);
        take_one(&mut self.releases, number);
        mark_if(&mut self.reached, arrival(entry, number, &handed, outcome));
        post_if(
            &mut self.outbox,
            agent,
            only_if(current, noted),
            settle_why(outcome),
        );
        self.records.push_reserved(Record::Settled {
            number,
            outcome,
            current,
        });
        Settlement {
            number,
            outcome,
            current,
            op: op_now(&self.agents, &agent),
        }
    }

    /// Whether a share has V and the contact of the terms, and the public key of the evidence, that its release was made with.
    fn has_parts(&self, handed: &Handed, share: &Share) -> bool
        requires terms { IsSome (terms_at self.now.history handed.now.place) }
        requires evidence { IsSome (evidence_at self.now.history handed.now.pass.place) }
        ensures { IsTrue result ↔ HasParts (terms_at self.now.history handed.now.place) (evidence_at self.now.history handed.now.pass.place) share.now }
    {
        let terms = self.terms_at(handed.place).terms();
        let evidence = self.evidence_at(handed.pass.place);
        terms.v() == Some(*share.v())
            && terms.contact() == share.contact()
            && evidence.public.as_str() == share.public()
    }

    /// Whether a share is the one that a release gave that is not settled, by value.
    fn has_share(&self, share: &Share) -> bool
        ensures { IsTrue result ↔ IsOpenShare (past self.now) share.now }
    {
        match self.handing(share.number()) {
            Some(handed) => {
                handed.agent == share.agent()
                    && handed.generation == share.generation()
                    && handed.pass.poll == share.poll()
                    && self.has_parts(&handed, share)
            },
            None => false,
        }
    }

    /// Settles a release; the share is the one that it gave.
    ///
    /// # Errors
    /// `NoRelease` where the release is settled.
    pub fn settle_own(
        &mut self,
        share: Share,
        outcome: Outcome,
    ) -> Result<Settlement, (Refusal, Share)>
        requires { IsGivenShare (past self.old) share }
        ensures answer { OwnSettles share outcome result (past self.old) }
        ensures history { self.new ≡ with_more (settle_makes share outcome result (past self.old)) self.old }
    {
        let number = share.number();
        if !self.is_unsettled(number) {
            return Err((Refusal::NoRelease(number), share));
        }
        Ok(self.settle_open(share, outcome))
    }

    /// Settles a release.
    ///
    /// # Errors
    /// `NoRelease` where the share is not the one that a release gave that is not settled, compared by value.
    pub fn settle(&mut self, share: Share, outcome: Outcome) -> Result<Settlement, (Refusal, Share)>
        ensures answer { Settles share outcome result (past self.old) }
        ensures history { self.new ≡ with_more (settle_makes share outcome result (past self.old)) self.old }
    {
        if !self.has_share(&share) {
            return Err((Refusal::NoRelease(share.number()), share));
        }
        Ok(self.settle_open(share, outcome))
    }
}

/// Makes room for all that a release and its settlement need, besides so many ends that are to come: their records, a notice, and
/// the mark of a boot.
///
/// # Errors
/// `Memory` where memory runs out; then there may be more room for records and notices.
fn reserve_release(
    alloc: Global,
    records: &mut Vec<Record>,
    outbox: &mut Outbox,
    reached: &mut BTreeMap<Target, bool>,
    ends: usize,
    target: Target,
) -> Result<(), Memory>
    requires { ends ≤ 1000000 }
    ensures items { records.new.items ≡ records.old.items }
    ensures capacity { vec_capacity records.old ≤ vec_capacity records.new }
    ensures records { OnOk result (length records.old.items + ends + 2 ≤ vec_capacity records.new) }
    ensures posted { outbox.new.posted ≡ outbox.old.posted }
    ensures marks { outbox.new.marks ≡ outbox.old.marks }
    ensures spare { outbox.old.spare ≤ outbox.new.spare }
    ensures notices { OnOk result (ends + 1 ≤ outbox.new.spare) }
    ensures place { OnOk result (Reserves reached.old reached.new target) }
    ensures same { OnErr result (IsUnchanged reached.old reached.new) }
{
    records.reserve(ends + 2)?;
    outbox.reserve(alloc, ends + 1)?;
    reserve_mark(reached, target)
}
