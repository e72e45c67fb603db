//! What stands above the classes and modules of a program, and the order in which a method is looked up in them.
#![tactic(auto)]

mod ancestors;
mod class_list;
mod hierarchy;
mod laws;
mod parents;

pub use ancestors::{Ancestors, AncestorsFault};
pub use class_list::ClassList;
pub use hierarchy::{Hierarchy, HierarchyFault};
pub use laws::{ancestors_law, examples, reckoned_law, root_law};
pub use parents::Parents;

#[cfg(test)]
mod tests;
