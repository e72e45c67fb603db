//! What the built-in methods do: on the values themselves, on the elements of arrays and on the pairs of hashes.
#![tactic(auto)]

mod answer;
mod array;
mod equality;
mod hash;
mod laws;
mod numbers;
mod operands;
mod operation;
mod outcome;
mod raise;
mod scalars;
mod table;
#[cfg(test)]
mod tests;
mod texts;

pub use answer::{Answer, ENTRY_LIMIT};
pub use array::Array;
pub use hash::Hash;
pub use laws::{
    division_examples, division_law, edge_examples, index_examples, key_examples, operand_examples,
};
pub use operation::{
    ArrayOperation, ChannelOperation, Comparison, ContextOperation, HashOperation, NumberOperation,
    Operation, PlainOperation, Reckoning, ReferenceClass, ScalarOperation, TextOperation,
};
pub use outcome::Outcome;
pub use raise::{Raise, unhandled};
pub use scalars::scalar;
pub use table::{OPERATIONS, operation_of};
