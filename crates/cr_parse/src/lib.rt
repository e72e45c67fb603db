//! The parser of expressions, statements and types: a function for each reader, with the outcome of its reader or want of memory.
#![tactic(auto)]

mod assignments;
mod calls;
mod classes;
mod clauses;
mod expressions;
mod links;
mod literals;
mod operations;
mod primaries;
mod recursion;
mod statement;

pub use calls::{MAX_DEPTH, MAX_TURNS, expression, statements, written_type};
pub use expressions::Expressions;
pub use recursion::read;
