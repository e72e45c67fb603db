//! What is done to a channel, as a cell.
ghost use Rattle.std.specs.Prelude.{◌≡◌, IfOk, OnOk, OnErr};
ghost use Rattle.std.specs.Option.{option_and_then};
ghost use Rattle.cr_items.specs.Channel.{Append, Take, Meet, Close, after, head_value};
ghost use Rattle.cr_heap.specs.Cells.{cell_of, number_in, passed_in};
ghost use Rattle.cr_heap.specs.Parts.{channel_of, changed};

use crate::cell::Cell;
use cr_base::{FiberId, NoMemory};
use cr_items::{Items, meeting_law};
use cr_value::Value;

/// Puts a value of the fiber `from` last and gives the item's number: `None` exactly where the channel is closed.
fn append(items: &mut Items, from: FiberId, v: Value) -> Result<Option<u64>, NoMemory>
    ensures ok { OnOk result (items.new ≡ after items.old (Append from v)) }
    ensures number { IfOk result (λ number. number ≡ number_in items.old) }
    ensures err { OnErr result (items.new ≡ items.old) }
{
    if items.closed() {
        return Ok(None);
    }
    Ok(Some(items.append(from, v)?))
}

/// Passes a value of the fiber `from` at once and gives it: `None` exactly where the channel is closed or has an item in its list.
fn meet(items: &mut Items, from: FiberId, v: Value) -> Result<Option<Value>, NoMemory>
    ensures ok { OnOk result (items.new ≡ after items.old (Meet from v)) }
    ensures value { IfOk result (λ given. given ≡ passed_in v items.old) }
    ensures err { OnErr result (items.new ≡ items.old) }
{
    meeting_law();
    if items.closed() {
        return Ok(None);
    }
    if items.waiting() > 0 {
        return Ok(None);
    }
    items.append(from, v)?;
    Ok(items.take())
}

impl Cell {
    /// Puts a value of the fiber `from` last into an open channel, and gives the item's number.
    pub(crate) fn append(&mut self, from: FiberId, v: Value) -> Result<Option<u64>, NoMemory>
        ensures ok { OnOk result (cell_of self.new ≡ changed (λ channel. after channel (Append from v)) (cell_of self.old)) }
        ensures number { IfOk result (λ number. number ≡ option_and_then number_in (channel_of (cell_of self.old))) }
        ensures err { OnErr result (cell_of self.new ≡ cell_of self.old) }
    {
        match self {
            Cell::Channel(items) => append(items, from, v),
            Cell::Object(_) | Cell::Array(_) | Cell::Hash(_) | Cell::Context(_) => Ok(None),
        }
    }

    /// Takes the first item of a channel and gives its value, if there is one.
    pub(crate) fn take(&mut self) -> Option<Value>
        ensures value { result ≡ option_and_then (λ channel. head_value channel.items) (channel_of (cell_of self.old)) }
        ensures moved { cell_of self.new ≡ changed (λ channel. after channel Take) (cell_of self.old) }
    {
        match self {
            Cell::Channel(items) => items.take(),
            Cell::Object(_) | Cell::Array(_) | Cell::Hash(_) | Cell::Context(_) => None,
        }
    }

    /// Closes a channel. Any other cell stays as it is.
    pub(crate) fn close(&mut self)
        ensures { cell_of self.new ≡ changed (λ channel. after channel Close) (cell_of self.old) }
    {
        match self {
            Cell::Channel(items) => items.close(),
            Cell::Object(_) | Cell::Array(_) | Cell::Hash(_) | Cell::Context(_) => {}
        }
    }

    /// Passes a value of the fiber `from` at once through an open channel with no item in its list, and gives it.
    pub(crate) fn meet(&mut self, from: FiberId, v: Value) -> Result<Option<Value>, NoMemory>
        ensures ok { OnOk result (cell_of self.new ≡ changed (λ channel. after channel (Meet from v)) (cell_of self.old)) }
        ensures value { IfOk result (λ given. given ≡ option_and_then (passed_in v) (channel_of (cell_of self.old))) }
        ensures err { OnErr result (cell_of self.new ≡ cell_of self.old) }
    {
        match self {
            Cell::Channel(items) => meet(items, from, v),
            Cell::Object(_) | Cell::Array(_) | Cell::Hash(_) | Cell::Context(_) => Ok(None),
        }
    }
}
