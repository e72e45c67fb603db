//! What a cell is, and what it tells of its class.
ghost use Rattle.std.specs.Prelude.{◌≡◌, Some};
ghost use Rattle.std.specs.Option.{option_copied, option_and_then};
ghost use Rattle.cr_meaning.specs.World.{World};
ghost use Rattle.cr_meaning.specs.State.{State};
ghost use Rattle.cr_meaning.specs.Calls.{class_of_cell};
ghost use Rattle.cr_meaning.specs.Channels as m;
ghost use Rattle.cr_heap.specs.Cells.{cell_of};
ghost use Rattle.cr_heap.specs.Told.{class_by};

use cr_base::{ClassId, ContextId, NameId};
use cr_builtins::{Array, Hash};
use cr_items::Items;
use cr_value::Value;

/// An object: its class, and those of its fields that were assigned.
#[derive(Drop)]
pub struct Instance {
    /// Its class.
    pub class: ClassId,
    /// Those of its fields that were assigned, with their values, in the order of their first assignments.
    pub fields: Vec<(NameId, Value)>,
}

/// What a reference leads to.
#[derive(Drop)]
pub enum Cell {
    Object(Instance),
    Array(Array),
    Hash(Hash),
    Channel(Items),
    /// A context, by its number.
    Context(ContextId),
}

/// What a cell tells of its class.
#[derive(Clone, Copy, Debug, PartialEq, Eq)]
pub enum CellKind {
    /// No such cell was made.
    Missing,
    /// An object of this class.
    Object(ClassId),
    Array,
    Hash,
    Channel,
    /// A context, by its number.
    Context(ContextId),
}

impl Cell {
    /// What the cell tells of its class. Takes no memory.
    pub fn kind(&self) -> CellKind
        ensures { (P : World) (s : State) → class_of_cell P s (Some (cell_of self.now)) ≡ class_by P s result }
    {
        match self {
            Cell::Object(object) => CellKind::Object(object.class),
            Cell::Array(_) => CellKind::Array,
            Cell::Hash(_) => CellKind::Hash,
            Cell::Channel(_) => CellKind::Channel,
            Cell::Context(context) => CellKind::Context(*context),
        }
    }
}

/// The cell that a receiver refers to.
pub(crate) fn receiver_cell(receiver: Option<&Value>) -> Option<usize>
    ensures { result ≡ option_and_then m.cell_of (option_copied receiver.entry) }
{
    match receiver? {
        Value::Ref(cell) => Some(cell.cell as usize),
        Value::Nil | Value::Flag(_) | Value::Small(_) | Value::Big(_) | Value::Word(_) => None,
    }
}
