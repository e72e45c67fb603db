//! The instances of the methods of a program: a list of distinct keys, each found by its hash.
#![tactic(auto)]

mod instances;
mod key;
mod laws;
#[cfg(test)]
mod tests;

pub use instances::{AddFault, INSTANCE_LIMIT, Instances};
pub use key::{AtomList, Key};
pub use laws::{number_law, stay_law};
