ghost use Rattle.std.specs.Prelude.{◌≡◌, ◌↔◌, ◌<◌, [], length, IsTrue, IsNone, IfOk, OnOk, OnErr, false};
ghost use Rattle.cr_items.specs.Channel.{new_channel, after_append, after_take, after_close, head_value, has_number, passed, unsettled, fate_of, IsLawful};

use crate::item::Item;
use cr_base::{FiberId, NoMemory};
use cr_value::{Fate, Value};
use std::alloc::Global;
use std::collections::VecDeque;
use std::marker::Model;

/// A channel. Contracts see its list of items, and those sent, received and withdrawn.
#[derive(Debug, Drop)]
pub struct Items {
    capacity: u32,
    closed: bool,
    // All items that were ever sent, in order. The first `taken` were received, the next ones stand in the list, as
    // many as there are copies, and a close withdrew the others.
    sent: Vec<Item>,
    taken: u64,
    // The values of the items in the list, to be handed out: so a receive takes no memory.
    copies: VecDeque<Value>,
}

impl Model for Items {
    ghost use Rattle.std.specs.Prelude.{length};
    ghost use Rattle.cr_items.specs.Channel.{Channel};
    ghost use Rattle.cr_items.specs.Kept.{cut, IsKept};

    ghost Value = { Channel };

    ghost view = { λ a. cut a.capacity a.closed a.sent.items a.taken (length a.copies.items) };

    ghost invariant = { λ a. IsKept a.capacity a.closed a.sent.items a.taken a.copies.items };
}

impl Items {
    /// An open channel with no item. It takes no memory.
    pub fn new(alloc: Global, capacity: u32) -> Items
        ensures { result ≡ new_channel capacity }
    {
        Items {
            capacity,
            closed: false,
            sent: Vec::new(alloc),
            taken: 0,
            copies: VecDeque::new(alloc),
        }
    }

    /// Puts a value of the fiber `from` last, and gives the item's number, from 0. The channel is open.
    pub fn append(&mut self, from: FiberId, v: Value) -> Result<u64, NoMemory>
        requires { self.old.closed ≡ false }
        ensures ok { OnOk result (self.new ≡ after_append self.old from v) }
        ensures number { IfOk result (λ number. number ≡ length self.old.sent) }
        ensures err { OnErr result (self.new ≡ self.old) }
    {
        let copy = v.copy(*self.sent.allocator())?;
        self.copies.push_back(copy)?;
        let number = self.sent.len() as u64;
        let item = Item {
            number,
            from,
            value: v,
        };
        if self.sent.push(item).is_err() {
            self.copies.pop_back();
            return Err(NoMemory);
        }
        Ok(number)
    }

    /// Takes the first item of the list and gives its value: `None` exactly where the list is empty.
    pub fn take(&mut self) -> Option<Value>
        ensures none { IsNone result ↔ (self.old.items ≡ []) }
        ensures value { result ≡ head_value self.old.items }
        ensures moved { self.new ≡ after_take self.old }
    {
        let value = self.copies.pop_front()?;
        self.taken += 1;
        Some(value)
    }

    /// Closes the channel and withdraws the items past its capacity. A second call changes nothing.
    pub fn close(&mut self)
        ensures { self.new ≡ after_close self.old }
    {
        self.closed = true;
        self.copies.truncate(self.capacity as usize);
    }

    /// What became of the item of this number, which was sent: `Passed` exactly where it was received or is settled,
    /// `Withdrawn` exactly where a close took it back, else `Waits`.
    pub fn fate(&self, item: u64) -> Fate
        requires { item < length self.now.sent }
        ensures value { result ≡ fate_of self.now item }
        ensures passed { (result ≡ Fate.Passed) ↔ IsTrue (has_number (passed self.now) item) }
        ensures waits { (result ≡ Fate.Waits) ↔ IsTrue (has_number (unsettled self.now) item) }
        ensures withdrawn { (result ≡ Fate.Withdrawn) ↔ IsTrue (has_number self.now.withdrawn item) }
    {
        let waiting = self.copies.len() as u64;
        if item < self.taken + waiting.min(u64::from(self.capacity)) {
            Fate::Passed
        } else if item < self.taken + waiting {
            Fate::Waits
        } else {
            Fate::Withdrawn
        }
    }

    /// How many items are settled at most.
    pub fn capacity(&self) -> u32
        ensures { result ≡ self.now.capacity }
    {
        self.capacity
    }

    /// Whether the channel was closed.
    pub fn closed(&self) -> bool
        ensures value { result ≡ self.now.closed }
        ensures lawful { IsLawful self.now }
    {
        self.closed
    }

    /// The number of items in the list.
    pub fn waiting(&self) -> u64
        ensures { result ≡ length self.now.items }
    {
        self.copies.len() as u64
    }

    /// The number of items that were ever sent.
    pub fn appended(&self) -> u64
        ensures { result ≡ length self.now.sent }
    {
        self.sent.len() as u64
    }

    /// The number of items that were received.
    pub fn taken(&self) -> u64
        ensures { result ≡ length self.now.received }
    {
        self.taken
    }

    /// The number of items that a close took back.
    pub fn withdrawn(&self) -> u64
        ensures { result ≡ length self.now.withdrawn }
    {
        self.sent.len() as u64 - self.taken - self.copies.len() as u64
    }
}
