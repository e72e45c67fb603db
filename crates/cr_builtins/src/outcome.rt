//! What an operation on values gives.
use crate::raise::Raise;
use cr_value::Value;

/// What an operation that reads no cell gives.
#[derive(Debug, PartialEq, Eq, Drop)]
pub enum Outcome {
    /// Its value.
    Gives(Value),
    /// It raises.
    Raises(Raise),
    /// An operand is of a class that the operation does not take.
    Stuck,
}
