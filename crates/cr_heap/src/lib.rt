//! The cells of a run, and what a reduction does to objects, arrays, hashes and channels alone.
#![tactic(auto)]

mod cell;
mod channels;
mod fields;
mod heap;
mod literals;
mod operations;
#[cfg(test)]
mod tests;

pub use cell::{Cell, CellKind, Instance};
pub use heap::Heap;
