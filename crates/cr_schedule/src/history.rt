ghost use Rattle.std.specs.Prelude.{◌≡◌, ◌+◌, ◌<◌, ◌≤◌, ◌^◌, [], ◌∷◌, ◌++◌, length, slice_get, All, Some, OnOk, OnErr};
ghost use Rattle.cr_schedule.specs.Entry.{HasLine, spent_by, spent};

use crate::entry::Entry;
use crate::slot::{Slot, entry_of, slot_of};
use cr_base::NoMemory;
use std::alloc::Global;
use std::marker::Model;

/// What was done in a run, in order. Contracts see the entries, and how many more it takes without
/// memory.
#[derive(Debug, Drop)]
pub struct History {
    slots: Vec<Slot>,
}

impl Model for History {
    ghost use Rattle.std.specs.Prelude.{◌-◌, map, All, vec_len, vec_capacity};
    ghost use Rattle.cr_schedule.specs.Entry.{HasLine};
    ghost use Rattle.cr_schedule.specs.Slot.{entry_of};
    ghost use Rattle.cr_schedule.specs.History.{Record};

    ghost Value = { Record };

    ghost view = { λ h. record {
      entries = map entry_of h.slots.items;
      spare = vec_capacity h.slots - vec_len h.slots;
    } };

    ghost invariant = { λ h. All (λ slot. HasLine (entry_of slot)) h.slots.items };
}

impl History {
    /// The empty history. Takes no memory.
    pub fn new(alloc: Global) -> Self
        ensures { result.entries ≡ [] }
    {
        History {
            slots: Vec::new(alloc),
        }
    }

    /// How many entries it has.
    pub fn length(&self) -> u64
        ensures length { result ≡ length self.now.entries }
        ensures small { result < 2 ^ 63 }
        ensures lines { All HasLine self.now.entries }
    {
        self.slots.len() as u64
    }

    /// The entry at a place, from 0.
    pub fn entry(&self, at: u64) -> Entry
        requires { at < length self.now.entries }
        ensures entry { slice_get self.now.entries at ≡ Some result }
        ensures line { HasLine result }
    {
        entry_of(self.slots[at as usize])
    }

    /// Puts an entry last.
    pub fn push(&mut self, entry: Entry) -> Result<(), NoMemory>
        requires { HasLine entry }
        ensures ok { OnOk result (self.new.entries ≡ self.old.entries ++ entry ∷ []) }
        ensures err { OnErr result (self.new.entries ≡ self.old.entries) }
    {
        self.slots.push(slot_of(entry))?;
        Ok(())
    }

    /// Makes room for at least that many more entries.
    pub fn reserve(&mut self, entries: usize) -> Result<(), NoMemory>
        ensures room { OnOk result (entries ≤ self.new.spare) }
        ensures entries { self.new.entries ≡ self.old.entries }
        ensures spare { self.old.spare ≤ self.new.spare }
    {
        self.slots.reserve(entries)?;
        Ok(())
    }

    /// Puts an entry last, in the room that was made for it. Takes no memory.
    pub fn push_reserved(&mut self, entry: Entry)
        requires line { HasLine entry }
        requires room { 1 ≤ self.old.spare }
        ensures entries { self.new.entries ≡ self.old.entries ++ entry ∷ [] }
        ensures spare { self.old.spare ≤ self.new.spare + 1 }
    {
        let _ = self.slots.push(slot_of(entry));
    }

    /// The reductions of all its entries and its resumes.
    pub fn spent(&self) -> u64
        requires { spent self.now.entries < 2 ^ 64 }
        ensures { result ≡ spent self.now.entries }
    {
        let mut total = 0;
        for at in 0..self.length() {
            total += spent_by(self.entry(at));
        }
        total
    }
}

fn spent_by(entry: Entry) -> u64
    ensures { result ≡ spent_by entry }
{
    match entry {
        Entry::Steps { count, .. } => u64::from(count),
        Entry::Wait(_) => 0,
        Entry::Resume(_) => 1,
    }
}
