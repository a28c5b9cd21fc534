//! The records of all agents.

ghost use Rattle.std.specs.Prelude.{◌≡◌, ◌⊎◌, ◌↔◌, ℕ, List, [], ◌∷◌, Option, Some, None, IfOk, IfErr, OnOk, OnErr, IsErrOf, IsSome, IsTrue, Err, option_map};
ghost use Rattle.std.specs.Cmp.Lexicographic.{slice_cmp};
ghost use Rattle.std.specs.List.Sorted.{IsStrictlySortedBy};
ghost use Rattle.std.specs.Map.{keys_of};
ghost use Rattle.std.specs.Option.{option_copied};
ghost use Rattle.std.specs.Ordering.{nat_cmp};
ghost use Rattle.std.specs.Result.{result_ok};
ghost use Rattle.kl_registrar.specs.Asking.{Asked};
ghost use Rattle.kl_registrar.specs.Calls.{Log, Register, Activate, Remove, registration, own};
ghost use Rattle.kl_registrar.specs.Records.{Keeps, kept_of, told_of, registered, IsActive, IsFull};
ghost use Rattle.kl_registrar.specs.Answers.{HasOtherTag, IsInactive, Lists};
ghost use Rattle.kl_registrar.specs.Inner.Listing.{actives};
ghost use Rattle.kl_registrar.specs.Inner.Parts.{Puts, Marks, IsFullOf};

use crate::fault::RegFault;
use crate::record::RegRecord;
use kl_base::Memory;
use kl_keys::Keys;
use kl_states::AgentId;
use std::alloc::Global;
use std::collections::BTreeMap;
use std::marker::Model;

/// The most records beside an agent's own.
const MOST_OTHERS: usize = 1_024;

/// The records of all agents. What they mean is said by the calls that were done: `Keeps self past` says that the
/// registrar keeps what one does that did the calls of `past`, the newest first.
#[derive(Drop)]
pub struct Registrar {
    records: BTreeMap<AgentId, RegRecord>,
}

impl Model for Registrar {
    ghost use Rattle.std.specs.Prelude.{ℕ, List};
    ghost use Rattle.kl_registrar.specs.declared.record.RegRecord.{RegRecord};

    ghost Value = { List (List ℕ × RegRecord) };

    ghost view = { λ r. r.records.entries };
}

/// Asks the keys for the blob.
fn ask<Y: Keys>(
    alloc: Global,
    keys: &mut Y,
    ek: &[u8],
    ak: &[u8],
    secret: &[u8; 32],
) -> Result<Vec<u8>, RegFault>
    ensures asked { Asked (Y.told keys.old) (Y.told keys.new) ek.now ak.now secret.now
        (option_map (λ blob. blob.items) (result_ok result)) (IsErrOf result RegFault.KeysFault) }
    ensures only { IfErr result (λ fault. (fault ≡ RegFault.KeysFault) ⊎ (fault ≡ RegFault.Memory)) }
{
    Ok(keys.credential(alloc, ek, ak, secret)?)
}

/// The agents of these records that are active.
fn active_ids(alloc: Global, records: &BTreeMap<AgentId, RegRecord>) -> Result<Vec<AgentId>, Memory>
    ensures listed { IfOk result (λ ids. ids.items ≡ actives records.now.entries) }
    ensures ordered { IsStrictlySortedBy (slice_cmp nat_cmp) (keys_of records.now.entries) }
{
    let mut ids = Vec::new(alloc);
    for (id, record) in records.iter() {
        if record.active {
            ids.push(*id)?;
        }
    }
    Ok(ids)
}

impl Registrar {
    /// A registrar that did no call yet.
    ///
    /// # Errors
    /// `Memory` where memory runs out.
    pub fn new(alloc: Global) -> Result<Registrar, Memory>
        ensures { IfOk result (λ registrar. Keeps registrar []) }
    {
        Ok(Registrar {
            records: BTreeMap::new(alloc),
        })
    }

    fn find(&self, id: &AgentId) -> Option<&RegRecord>
        ensures { option_copied result ≡ kept_of id.now self.now }
    {
        self.records.get(id)
    }

    fn is_full(&self, id: &AgentId) -> bool
        ensures { IsTrue result ↔ IsFullOf self.now id.now }
    {
        let records = self.records.len();
        if self.records.contains_key(id) {
            return records > MOST_OTHERS;
        }
        records >= MOST_OTHERS
    }

    fn put(&mut self, id: AgentId, made: RegRecord) -> Result<(), Memory>
        ensures done { OnOk result (Puts id made self.old self.new) }
        ensures refused { OnErr result (self.new ≡ self.old) }
    {
        drop(self.records.insert(id, made)?);
        Ok(())
    }

    fn enter(
        &mut self,
        alloc: Global,
        id: AgentId,
        ek: &[u8],
        ak: &[u8],
        contact: &str,
        secret: [u8; 32],
    ) -> Result<(), Memory>
        ensures done { OnOk result ((past : Log) → Keeps self.old past
            → Keeps self.new (Register id (registration ek.now ak.now contact.now secret) ∷ past)) }
        ensures refused { OnErr result (self.new ≡ self.old) }
    {
        let record = RegRecord::new(alloc, ek, ak, contact, secret)?;
        self.put(id, record)?;
        Ok(())
    }

    /// Registers an agent: the blob of the secret for its two keys. Its record takes the place of an earlier one, and
    /// is not active.
    ///
    /// # Errors
    /// The first of these that applies: [`RegFault::Full`] where 1,024 other agents have a record,
    /// [`RegFault::KeysFault`] where the keys met a fault, [`RegFault::Memory`] where memory runs out. Each leaves an
    /// earlier record as it was.
    pub fn register<Y: Keys>(
        &mut self,
        alloc: Global,
        id: AgentId,
        ek: &[u8],
        ak: &[u8],
        contact: &str,
        secret: [u8; 32],
        keys: &mut Y,
    ) -> Result<Vec<u8>, RegFault>
        ensures done { OnOk result ((past : Log) → Keeps self.old past
            → Keeps self.new (Register id (registration ek.now ak.now contact.now secret) ∷ past)) }
        ensures refused { OnErr result (self.new ≡ self.old) }
        ensures full { (past : Log) → Keeps self.old past → (result ≡ Err RegFault.Full) ↔ IsFull past id }

        // A full registrar leaves the keys alone. Else they are asked once, and what is answered is their answer.
        ensures unasked { result ≡ Err RegFault.Full → Y.told keys.new ≡ Y.told keys.old }
        ensures asked { (result ≡ Err RegFault.Full) ⊎ ((answer : Option (List ℕ))
            × Asked (Y.told keys.old) (Y.told keys.new) ek.now ak.now secret answer (IsErrOf result RegFault.KeysFault)
            × IfOk result (λ blob. answer ≡ Some blob.items) × (result ≡ Err RegFault.KeysFault → answer ≡ None)) }
        ensures only { IfErr result
            (λ fault. (fault ≡ RegFault.Full) ⊎ (fault ≡ RegFault.KeysFault) ⊎ (fault ≡ RegFault.Memory)) }
    {
        if self.is_full(&id) {
            return Err(RegFault::Full);
        }
        let blob = ask(alloc, keys, ek, ak, &secret)?;
        self.enter(alloc, id, ek, ak, contact, secret)?;
        Ok(blob)
    }

    fn mark(&mut self, id: &AgentId)
        requires { IsSome (kept_of id.now self.old) }
        ensures { Marks id.now self.old self.new }
    {
        if let Some(record) = self.records.get_mut(id) {
            record.active = true;
        }
    }

    /// Makes an agent's record active by the tag under its secret, in hexadecimal digits of either case.
    ///
    /// # Errors
    /// [`RegFault::NoAgent`] where the agent has no record, [`RegFault::WrongTag`] where the text is another. The
    /// record stays as it was.
    pub fn activate(&mut self, id: &AgentId, tag: &str) -> Result<(), RegFault>
        ensures done { OnOk result ((past : Log) → Keeps self.old past
            → Keeps self.new (Activate id.now tag.now ∷ past)) }
        ensures refused { OnErr result (self.new ≡ self.old) }
        ensures no_agent { (past : Log) → Keeps self.old past
            → (result ≡ Err RegFault.NoAgent) ↔ (registered (own past id.now) ≡ None) }
        ensures wrong_tag { (past : Log) → Keeps self.old past
            → (result ≡ Err RegFault.WrongTag) ↔ HasOtherTag id.now tag.now (registered (own past id.now)) }
        ensures only { IfErr result (λ fault. (fault ≡ RegFault.NoAgent) ⊎ (fault ≡ RegFault.WrongTag)) }
    {
        let Some(record) = self.find(id) else {
            return Err(RegFault::NoAgent);
        };
        if !record.is_tag(id, tag) {
            return Err(RegFault::WrongTag);
        }
        self.mark(id);
        Ok(())
    }

    /// The active record of an agent.
    ///
    /// # Errors
    /// [`RegFault::NoAgent`] where the agent has no record, [`RegFault::NotActive`] where it has one that is not active.
    pub fn get(&self, id: &AgentId) -> Result<&RegRecord, RegFault>
        ensures found { IfOk result (λ kept. (past : Log) → Keeps self.now past
            → (registered (own past id.now) ≡ Some (told_of kept.now)) × IsActive (own past id.now)) }
        ensures active { IfOk result (λ kept. IsTrue kept.now.active) }
        ensures no_agent { (past : Log) → Keeps self.now past
            → (result ≡ Err RegFault.NoAgent) ↔ (registered (own past id.now) ≡ None) }
        ensures not_active { (past : Log) → Keeps self.now past
            → (result ≡ Err RegFault.NotActive) ↔ IsInactive (own past id.now) }
        ensures only { IfErr result (λ fault. (fault ≡ RegFault.NoAgent) ⊎ (fault ≡ RegFault.NotActive)) }
    {
        let Some(record) = self.find(id) else {
            return Err(RegFault::NoAgent);
        };
        if !record.active {
            return Err(RegFault::NotActive);
        }
        Ok(record)
    }

    /// The agents whose records are active, in the order of the bytes of their names.
    ///
    /// # Errors
    /// [`RegFault::Memory`] where there is none for the list.
    pub fn list(&self, alloc: Global) -> Result<Vec<AgentId>, RegFault>
        ensures listed { IfOk result (λ ids. (past : Log) → Keeps self.now past
            → Lists (λ id. IsActive (own past id)) ids.items) }
        ensures only { IfErr result (λ fault. fault ≡ RegFault.Memory) }
    {
        Ok(active_ids(alloc, &self.records)?)
    }

    /// Forgets an agent's record.
    ///
    /// # Errors
    /// [`RegFault::NoAgent`] where it has none.
    pub fn remove(&mut self, id: &AgentId) -> Result<(), RegFault>
        ensures done { OnOk result ((past : Log) → Keeps self.old past → Keeps self.new (Remove id.now ∷ past)) }
        ensures refused { OnErr result (self.new ≡ self.old) }
        ensures no_agent { (past : Log) → Keeps self.old past
            → (result ≡ Err RegFault.NoAgent) ↔ (registered (own past id.now) ≡ None) }
        ensures only { IfErr result (λ fault. fault ≡ RegFault.NoAgent) }
    {
        let Some(record) = self.records.remove(id) else {
            return Err(RegFault::NoAgent);
        };
        drop(record);
        Ok(())
    }
}
