//! Notices in order, of which the first so many are delivered.

ghost use Rattle.std.specs.Prelude.{◌≡◌, ◌≤◌, ◌+◌, ◌↔◌, ◌∷◌, [], ◌++◌, IsTrue, IfOk, IfSome, OnOk, Some, length};
ghost use Rattle.kl_notice.specs.Outbox.{next_of, IsNextNumber, marked_if};

use crate::notice::{FailWhy, Notice};
use kl_base::Memory;
use kl_states::AgentId;
use std::alloc::Global;
use std::marker::Model;

/// The notices in the order in which they were posted. The first `marks` of them are delivered, and there is room
/// for `spare` more without taking memory.
#[derive(Drop)]
pub struct Outbox {
    notices: Vec<Notice>,
    marked: usize,
}

impl Model for Outbox {
    ghost use Rattle.std.specs.Prelude.{◌≤◌, ◌-◌, length, vec_capacity, vec_len};
    ghost use Rattle.kl_notice.specs.Outbox.{OutboxFields, AreNumbered};

    ghost Value = { OutboxFields };

    ghost view = { λ o. record {
      posted = o.notices.items;
      marks = o.marked;
      spare = vec_capacity o.notices - vec_len o.notices;
    } };

    ghost invariant = { λ o. (o.marked ≤ length o.notices.items) × AreNumbered o.notices.items };
}

impl Outbox {
    /// An outbox without notices.
    ///
    /// # Errors
    /// [`Memory`] where there is none.
    pub fn new(alloc: Global) -> Result<Outbox, Memory>
        ensures posted { IfOk result (λ o. o.posted ≡ []) }
        ensures marks { IfOk result (λ o. o.marks ≡ 0) }
    {
        Ok(Outbox {
            notices: Vec::new(alloc),
            marked: 0,
        })
    }

    /// Makes room for so many notices more.
    ///
    /// # Errors
    /// [`Memory`] where there is none.
    pub fn reserve(&mut self, _alloc: Global, count: usize) -> Result<(), Memory>
        ensures room { OnOk result (count ≤ self.new.spare) }
        ensures kept { self.old.spare ≤ self.new.spare }
        ensures posted { self.new.posted ≡ self.old.posted }
        ensures marks { self.new.marks ≡ self.old.marks }
    {
        self.notices.reserve(count)?;
        Ok(())
    }

    /// Posts that an agent failed, which takes no memory; the notice has the next number.
    pub fn push(&mut self, agent: AgentId, generation: u64, why: FailWhy)
        requires { 1 ≤ self.old.spare }
        ensures posted { self.new.posted ≡ self.old.posted ++ record { number = length self.old.posted + 1; agent = agent; generation = generation; why = why } ∷ [] }
        ensures marks { self.new.marks ≡ self.old.marks }
        ensures spare { self.new.spare + 1 ≡ self.old.spare }
    {
        let number = self.notices.len() as u64 + 1;
        self.notices.push_reserved(Notice {
            number,
            agent,
            generation,
            why,
        });
    }

    /// The first notice that is not delivered yet, None where all are.
    pub fn next(&self) -> Option<Notice>
        ensures next { result ≡ next_of self.now }
        ensures number { IfSome result (λ n. n.number ≡ self.now.marks + 1) }
    {
        match self.notices.get(self.marked) {
            Some(notice) => Some(*notice),
            None => None,
        }
    }

    /// Notes that the next notice was delivered, where it has this number, and answers whether it has.
    pub fn mark_delivered(&mut self, number: u64) -> bool
        ensures answer { IsTrue result ↔ IsNextNumber self.old number }
        ensures marks { self.new ≡ marked_if result self.old }
    {
        match self.next() {
            Some(notice) => if notice.number == number {
                self.marked += 1;
                true
            } else {
                false
            },
            None => false,
        }
    }
}
