ghost use Rattle.std.specs.Prelude.{◌≡◌, ◌↔◌, IfOk, IsTrue};

use crate::text::Text;
use cr_base::NoMemory;
use std::alloc::Global;

/// A reference to a cell of a run: an object, an array, a hash, a channel or a context.
#[derive(Clone, Copy, Debug, PartialEq, Eq, Hash)]
pub struct CellRef {
    /// The cell's number in the order of making.
    pub cell: u32,
    /// The number of the cell's atom, its class with its written type arguments.
    pub atom: u32,
}

/// A value of the language.
#[derive(Debug, PartialEq, Eq, Hash, Drop)]
pub enum Value {
    /// `nil`.
    Nil,
    /// A `Bool`.
    Flag(bool),
    /// An `Int32`.
    Small(i32),
    /// An `Int64`.
    Big(i64),
    /// A `String`.
    Word(Text),
    /// A reference.
    Ref(CellRef),
}

/// What became of an item that was sent to a channel.
#[derive(Clone, Copy, Debug, PartialEq, Eq)]
pub enum Fate {
    /// It waits in the channel, and its sender with it.
    Waits,
    /// Its sender goes on: the item has its place in the channel, or was taken.
    Passed,
    /// A close of the channel took it back.
    Withdrawn,
}

impl Value {
    /// A second value equal to this one.
    pub fn copy(&self, alloc: Global) -> Result<Value, NoMemory>
        ensures { IfOk result (λ made. made ≡ self.now) }
    {
        Ok(match self {
            Value::Nil => Value::Nil,
            Value::Flag(flag) => Value::Flag(*flag),
            Value::Small(number) => Value::Small(*number),
            Value::Big(number) => Value::Big(*number),
            Value::Word(text) => Value::Word(text.copy(alloc)?),
            Value::Ref(cell) => Value::Ref(*cell),
        })
    }

    /// Whether the two values have one class and are equal there, which makes them one key of a hash.
    pub fn is_same(&self, other: &Value) -> bool
        ensures { IsTrue result ↔ (self.now ≡ other.now) }
    {
        self == other
    }
}
