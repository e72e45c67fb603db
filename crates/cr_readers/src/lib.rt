//! The readers of the grammar as functions on lists of tokens, the steps that they are made of, and the cursor that takes these steps.
#![tactic(auto)]

mod cursor;
mod fault;
mod looks;
mod operand;

pub use cursor::{Cursor, MAX_NESTING, MAX_NODES};
pub use fault::ParseFault;
pub use looks::{begins_value, is_minus};
pub use operand::{Operand, Operator};

#[cfg(test)]
mod tests;
