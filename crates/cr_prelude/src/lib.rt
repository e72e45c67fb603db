//! The built-in methods, and the prelude: the methods of the built-in classes that are written in the language.
#![tactic(auto)]

mod class;
mod collections;
mod integers;
mod laws;
mod lines;
mod lookup;
mod objects;
mod program;
mod source;
mod table;

pub use class::{Builtin, BuiltinClass};
pub use laws::{builtins_are_listed, one_number_a_line};
pub use lookup::{builtin, builtin_count, line};
pub use program::tree;
pub use source::{TEXT, text};
pub use table::BUILTINS;

#[cfg(test)]
mod tests;
