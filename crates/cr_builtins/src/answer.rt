//! What an operation on an array or a hash answers.
ghost use Rattle.std.specs.Prelude.{◌≡◌, ◌≤◌, IfOk};
ghost use Rattle.std.specs.Option.{option_copied};
ghost use Rattle.cr_builtins.specs.Cells.{count, or_else};

use crate::array::Array;
use crate::raise::Raise;
use cr_base::NoMemory;
use cr_value::Value;
use std::alloc::Global;

/// The most elements that an array has, and the most pairs that a hash has.
pub const ENTRY_LIMIT: usize = 1_000_000;

/// What an operation on an array or a hash answers, beside what the cell holds afterwards.
#[derive(Debug, Drop)]
pub enum Answer {
    /// Its value.
    Gives(Value),
    /// The reference of the cell itself.
    Itself,
    /// The reference of a new array of these elements.
    Makes(Array),
    /// It raises. The cell is as before.
    Raises(Raise),
    /// An operand is of a class that the operation does not take. The cell is as before.
    Stuck,
}

/// The value, or else that an array has no such element.
pub(crate) fn or_index(value: Option<Value>) -> Answer
    ensures { result ≡ or_else value (Answer.Raises Raise.Index) }
{
    match value {
        Some(value) => Answer::Gives(value),
        None => Answer::Raises(Raise::Index),
    }
}

/// The value, or else nil.
pub(crate) fn or_nil(value: Option<Value>) -> Answer
    ensures { result ≡ or_else value (Answer.Gives Value.Nil) }
{
    match value {
        Some(value) => Answer::Gives(value),
        None => Answer::Gives(Value::Nil),
    }
}

/// The value, or else that a hash has no such key.
pub(crate) fn or_key(value: Option<Value>) -> Answer
    ensures { result ≡ or_else value (Answer.Raises Raise.Key) }
{
    match value {
        Some(value) => Answer::Gives(value),
        None => Answer::Raises(Raise::Key),
    }
}

/// A copy of the value, if there is one.
pub(crate) fn copied(alloc: Global, value: Option<&Value>) -> Result<Option<Value>, NoMemory>
    ensures { IfOk result (λ copy. copy ≡ option_copied value.entry) }
{
    match value {
        Some(value) => Ok(Some(value.copy(alloc)?)),
        None => Ok(None),
    }
}

/// An Int32 of this number.
pub(crate) fn count(number: usize) -> Answer
    requires { number ≤ ENTRY_LIMIT }
    ensures { result ≡ count number }
{
    Answer::Gives(Value::Small(number as i32))
}
