//! What constructs hold: lists, types, bodies, blocks and branches, read with a function for what nests.
#![tactic(auto)]

mod bodies;
mod compounds;
mod item;
mod lists;
mod parser;
mod types;

pub use item::{Clause, Item, Lines};
pub use parser::Parser;
