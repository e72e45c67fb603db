//! The cells that were made in a run.
ghost use Rattle.std.specs.Prelude.{◌≡◌, ◌≤◌, [], length, slice_get, true, false, None, IfOk, OnOk, OnErr};
ghost use Rattle.std.specs.Option.{option_copied, option_map, option_and_then};
ghost use Rattle.cr_value.specs.declared.value.Value.{Value as TheValue};
ghost use Rattle.cr_items.specs.Channel.{Append, Take, Meet, Close, after, head_value};
ghost use Rattle.cr_meaning.specs.World.{World};
ghost use Rattle.cr_meaning.specs.State.{State, Array as ArrayCell};
ghost use Rattle.cr_meaning.specs.Act.{Act, gives};
ghost use Rattle.cr_meaning.specs.Limits.{most_cells};
ghost use Rattle.cr_meaning.specs.Calls.{makes_cell, class_of_cell};
ghost use Rattle.cr_meaning.specs.Channels.{channel_in, makes_channel};
ghost use Rattle.cr_meaning.specs.Builtins.{answers, on_array_cell, on_hash_cell, hash_of};
ghost use Rattle.cr_meaning.specs.Reduce.{reads_field, sets_field, hash_made};
ghost use Rattle.cr_heap.specs.Cells.{instance_of, cell_of, number_in, passed_in, with_channel};
ghost use Rattle.cr_heap.specs.Parts.{object_of, may_change};
ghost use Rattle.cr_heap.specs.Told.{told, going, is_given, class_by};

use crate::cell::{Cell, CellKind, Instance, receiver_cell};
use crate::fields::read;
use crate::literals::{array_of, channel_of, hash_of};
use cr_base::{CellId, FiberId, NameId, NoMemory};
use cr_builtins::{Answer, ArrayOperation, HashOperation, Outcome, Raise};
use cr_items::Items;
use cr_value::{CellRef, Value};
use std::alloc::Global;
use std::marker::Model;

// The most cells that are made in a run.
const CELL_LIMIT: usize = 4_000_000;

/// The cells that were made in a run, in the order of making. Contracts see them as the meaning has them.
#[derive(Drop)]
pub struct Heap {
    cells: Vec<Cell>,
}

impl Model for Heap {
    ghost use Rattle.std.specs.Prelude.{List, ◌≤◌, length, map};
    ghost use Rattle.cr_meaning.specs.State.{Cell as TheCell};
    ghost use Rattle.cr_meaning.specs.Limits.{most_cells};

    ghost Value = { List TheCell };

    ghost use Rattle.cr_heap.specs.Cells.{cell_of};

    ghost view = { λ h. map cell_of h.cells.items };

    ghost invariant = { λ h. length h.cells.items ≤ most_cells };
}

impl Heap {
    /// No cell. It takes no memory.
    pub fn new(alloc: Global) -> Heap
        ensures { result ≡ [] }
    {
        Heap {
            cells: Vec::new(alloc),
        }
    }

    /// The number of cells.
    pub fn len(&self) -> usize
        ensures value { result ≡ length self.now }
        ensures within { length self.now ≤ most_cells }
    {
        self.cells.len()
    }

    /// A cell: `None` exactly where it was not made.
    pub fn cell(&self, at: CellId) -> Option<&Cell>
        ensures { option_map cell_of (option_copied result) ≡ slice_get self.now at.0 }
    {
        self.cells.get(at.0 as usize)
    }

    /// The channel of a cell: `None` exactly where that is no channel.
    pub fn channel(&self, at: CellId) -> Option<&Items>
        ensures { option_copied result ≡ channel_in (slice_get self.now at.0) }
    {
        match self.cells.get(at.0 as usize)? {
            Cell::Channel(items) => Some(items),
            Cell::Object(_) | Cell::Array(_) | Cell::Hash(_) | Cell::Context(_) => None,
        }
    }

    /// What a cell tells of its class.
    pub fn kind(&self, at: CellId) -> CellKind
        ensures { (P : World) (s : State) → s.cells ≡ self.now → class_of_cell P s (slice_get s.cells at.0) ≡ class_by P s result }
    {
        match self.cells.get(at.0 as usize) {
            Some(cell) => cell.kind(),
            None => CellKind::Missing,
        }
    }

    /// A new cell, and the reference to it: `None` exactly where there are as many as a run may make. Then, and after want of memory,
    /// the cells are as before.
    pub fn make(&mut self, cell: Cell) -> Result<Option<CellRef>, NoMemory>
        ensures ok { IfOk result (λ made. (s : State) (go : State → TheValue → Act) → s.cells ≡ self.old →
            makes_cell s (cell_of cell) go ≡ going s self.new go made) }
        ensures full { IfOk result (λ made. made ≡ None → self.new ≡ self.old) }
        ensures err { OnErr result (self.new ≡ self.old) }
    {
        let number = self.cells.len();
        if number >= CELL_LIMIT {
            return Ok(None);
        }
        self.cells.push(cell)?;
        Ok(Some(CellRef {
            cell: number as u32,
            atom: 0,
        }))
    }

    /// A new cell, whose reference is what is given.
    fn give(&mut self, cell: Cell) -> Result<Outcome, NoMemory>
        ensures ok { IfOk result (λ outcome. (s : State) → s.cells ≡ self.old →
            makes_cell s (cell_of cell) gives ≡ told s self.new outcome) }
        ensures kept { IfOk result (λ outcome. is_given outcome ≡ false → self.new ≡ self.old) }
        ensures err { OnErr result (self.new ≡ self.old) }
    {
        match self.make(cell)? {
            Some(made) => Ok(Outcome::Gives(Value::Ref(made))),
            None => Ok(Outcome::Raises(Raise::Limit)),
        }
    }

    /// What an answer of the array or hash of a cell comes to.
    fn answer(&mut self, at: CellId, answer: Answer) -> Result<Outcome, NoMemory>
        ensures ok { IfOk result (λ outcome. (s : State) → s.cells ≡ self.old → answers s at.0 answer ≡ told s self.new outcome) }
        ensures kept { IfOk result (λ outcome. is_given outcome ≡ false → self.new ≡ self.old) }
        ensures given { may_change answer ≡ true → IfOk result (λ outcome. is_given outcome ≡ true) }
        ensures no_memory { OnErr result (may_change answer ≡ false) }
        ensures err { OnErr result (self.new ≡ self.old) }
    {
        match answer {
            Answer::Gives(value) => Ok(Outcome::Gives(value)),
            Answer::Itself => Ok(Outcome::Gives(Value::Ref(CellRef {
                cell: at.0,
                atom: 0,
            }))),
            Answer::Makes(array) => self.give(Cell::Array(array)),
            Answer::Raises(raise) => Ok(Outcome::Raises(raise)),
            Answer::Stuck => Ok(Outcome::Stuck),
        }
    }

    /// What an operation of arrays comes to on a cell. Where that gives no value, and after want of memory, the cells are as before.
    pub fn array_operation(
        &mut self,
        alloc: Global,
        at: CellId,
        operation: ArrayOperation,
        arguments: &[Value],
    ) -> Result<Outcome, NoMemory>
        ensures ok { IfOk result (λ outcome. (s : State) → s.cells ≡ self.old →
            on_array_cell s at.0 operation arguments.now (slice_get s.cells at.0) ≡ told s self.new outcome) }
        ensures kept { IfOk result (λ outcome. is_given outcome ≡ false → self.new ≡ self.old) }
        ensures err { OnErr result (self.new ≡ self.old) }
    {
        let Some(cell) = self.cells.get_mut(at.0 as usize) else {
            return Ok(Outcome::Stuck);
        };
        let answer = cell.array_operation(alloc, operation, arguments)?;
        self.answer(at, answer)
    }

    /// What an operation of hashes comes to on a cell. Where that gives no value, and after want of memory, the cells are as before.
    pub fn hash_operation(
        &mut self,
        alloc: Global,
        at: CellId,
        operation: HashOperation,
        arguments: &[Value],
    ) -> Result<Outcome, NoMemory>
        ensures ok { IfOk result (λ outcome. (s : State) → s.cells ≡ self.old →
            on_hash_cell s at.0 operation arguments.now (slice_get s.cells at.0) ≡ told s self.new outcome) }
        ensures kept { IfOk result (λ outcome. is_given outcome ≡ false → self.new ≡ self.old) }
        ensures err { OnErr result (self.new ≡ self.old) }
    {
        let Some(cell) = self.cells.get_mut(at.0 as usize) else {
            return Ok(Outcome::Stuck);
        };
        let answer = cell.hash_operation(alloc, operation, arguments)?;
        self.answer(at, answer)
    }

    /// The object that a receiver refers to.
    fn object(&self, receiver: Option<&Value>) -> Option<&Instance>
        ensures { option_map instance_of (option_copied result) ≡ object_of self.now (option_copied receiver.entry) }
    {
        match self.cells.get(receiver_cell(receiver)?)? {
            Cell::Object(object) => Some(object),
            Cell::Array(_) | Cell::Hash(_) | Cell::Channel(_) | Cell::Context(_) => None,
        }
    }

    /// What a field of the receiver reads as: a copy of its value, nil where it was not assigned; stuck where the receiver is no object.
    pub fn read_field(
        &self,
        alloc: Global,
        name: NameId,
        receiver: Option<&Value>,
    ) -> Result<Outcome, NoMemory>
        ensures { IfOk result (λ outcome. (s : State) → s.cells ≡ self.now →
            reads_field s name (option_copied receiver.entry) ≡ told s self.now outcome) }
    {
        match self.object(receiver) {
            Some(object) => Ok(Outcome::Gives(read(alloc, object.fields.as_slice(), name)?)),
            None => Ok(Outcome::Stuck),
        }
    }

    /// What the assignment of a copy of the value to a field of the receiver comes to: the value; stuck where the receiver is no object.
    /// Then, and after want of memory, the cells are as before.
    pub fn set_field(
        &mut self,
        alloc: Global,
        name: NameId,
        value: &Value,
        receiver: Option<&Value>,
    ) -> Result<Outcome, NoMemory>
        ensures ok { IfOk result (λ outcome. (s : State) → s.cells ≡ self.old →
            sets_field s name value.now (option_copied receiver.entry) ≡ told s self.new outcome) }
        ensures kept { IfOk result (λ outcome. is_given outcome ≡ false → self.new ≡ self.old) }
        ensures err { OnErr result (self.new ≡ self.old) }
    {
        let Some(at) = receiver_cell(receiver) else {
            return Ok(Outcome::Stuck);
        };
        let Some(cell) = self.cells.get_mut(at) else {
            return Ok(Outcome::Stuck);
        };
        cell.set_field(alloc, name, value)
    }

    /// A new array of copies of these values: it raises exactly where there are as many cells as a run may make. More values than an
    /// array may have are answered with want of memory. Where no value is given, and after want of memory, the cells are as before.
    pub fn make_array(&mut self, alloc: Global, values: &[Value]) -> Result<Outcome, NoMemory>
        ensures ok { IfOk result (λ outcome. (s : State) → s.cells ≡ self.old →
            makes_cell s (ArrayCell values.now) gives ≡ told s self.new outcome) }
        ensures kept { IfOk result (λ outcome. is_given outcome ≡ false → self.new ≡ self.old) }
        ensures err { OnErr result (self.new ≡ self.old) }
    {
        let array = array_of(alloc, values)?;
        self.give(Cell::Array(array))
    }

    /// A new hash of copies of keys and values that stand in turn: stuck where a key is a reference or the last one has no value. It raises
    /// where there are as many cells as a run may make. More pairs than a hash may have are answered with want of memory. Where no value
    /// is given, and after want of memory, the cells are as before.
    pub fn make_hash(&mut self, alloc: Global, values: &[Value]) -> Result<Outcome, NoMemory>
        ensures ok { IfOk result (λ outcome. (s : State) → s.cells ≡ self.old →
            hash_made s (hash_of values.now) ≡ told s self.new outcome) }
        ensures kept { IfOk result (λ outcome. is_given outcome ≡ false → self.new ≡ self.old) }
        ensures err { OnErr result (self.new ≡ self.old) }
    {
        match hash_of(alloc, values)? {
            Some(hash) => self.give(Cell::Hash(hash)),
            None => Ok(Outcome::Stuck),
        }
    }

    /// A new channel, of the capacity that the argument names, or of none: it raises where that is out of range, and where there are as many
    /// cells as a run may make. Where no value is given, and after want of memory, the cells are as before.
    pub fn make_channel(&mut self, alloc: Global, arguments: &[Value]) -> Result<Outcome, NoMemory>
        ensures ok { IfOk result (λ outcome. (s : State) → s.cells ≡ self.old →
            makes_channel s arguments.now ≡ told s self.new outcome) }
        ensures kept { IfOk result (λ outcome. is_given outcome ≡ false → self.new ≡ self.old) }
        ensures err { OnErr result (self.new ≡ self.old) }
    {
        match channel_of(alloc, arguments) {
            Ok(channel) => self.give(Cell::Channel(channel)),
            Err(outcome) => Ok(outcome),
        }
    }

    /// Puts a value of the fiber `from` last into the channel of a cell, and gives the item's number: `None` exactly where that is no open
    /// channel. After want of memory the cells are as before.
    pub fn append(&mut self, at: CellId, from: FiberId, v: Value) -> Result<Option<u64>, NoMemory>
        ensures ok { OnOk result (self.new ≡ with_channel (λ channel. after channel (Append from v)) self.old at.0 (channel_in (slice_get self.old at.0))) }
        ensures number { IfOk result (λ number. number ≡ option_and_then number_in (channel_in (slice_get self.old at.0))) }
        ensures err { OnErr result (self.new ≡ self.old) }
    {
        let Some(cell) = self.cells.get_mut(at.0 as usize) else {
            return Ok(None);
        };
        cell.append(from, v)
    }

    /// Takes the first item of the channel of a cell and gives its value: `None` exactly where that is no channel, or its list is empty.
    pub fn take(&mut self, at: CellId) -> Option<Value>
        ensures value { result ≡ option_and_then (λ channel. head_value channel.items) (channel_in (slice_get self.old at.0)) }
        ensures moved { self.new ≡ with_channel (λ channel. after channel Take) self.old at.0 (channel_in (slice_get self.old at.0)) }
    {
        let Some(cell) = self.cells.get_mut(at.0 as usize) else {
            return None;
        };
        cell.take()
    }

    /// Closes the channel of a cell. Where that is no channel, nothing changes.
    pub fn close(&mut self, at: CellId)
        ensures { self.new ≡ with_channel (λ channel. after channel Close) self.old at.0 (channel_in (slice_get self.old at.0)) }
    {
        let Some(cell) = self.cells.get_mut(at.0 as usize) else {
            return;
        };
        cell.close();
    }

    /// Passes a value of the fiber `from` at once through the channel of a cell, and gives it: `None` exactly where that is no open channel
    /// with an empty list. After want of memory the cells are as before.
    pub fn meet(&mut self, at: CellId, from: FiberId, v: Value) -> Result<Option<Value>, NoMemory>
        ensures ok { OnOk result (self.new ≡ with_channel (λ channel. after channel (Meet from v)) self.old at.0 (channel_in (slice_get self.old at.0))) }
        ensures value { IfOk result (λ given. given ≡ option_and_then (passed_in v) (channel_in (slice_get self.old at.0))) }
        ensures err { OnErr result (self.new ≡ self.old) }
    {
        let Some(cell) = self.cells.get_mut(at.0 as usize) else {
            return Ok(None);
        };
        cell.meet(from, v)
    }
}
