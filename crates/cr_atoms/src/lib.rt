//! Atoms, each a class with its written type arguments, in a table that gives them numbers, and types as sets of them.
#![tactic(auto)]

mod atom;
mod atoms;
mod laws;
#[cfg(test)]
mod tests;
mod type_set;

pub use atom::{Atom, TypeArguments};
pub use atoms::{AtomFault, Atoms, DEEPEST};
pub use laws::{add_law, depth_law, join_law, meet_law, number_law, set_law, stay_law};
pub use type_set::{NIL, TypeSet, join};
