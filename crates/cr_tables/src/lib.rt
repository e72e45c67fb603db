//! What the tables of a program answer: which method a call finds, what stands above a class, what a `new` makes. Each answer is
//! that of the program's world, as the meaning reads it.
#![tactic(auto)]

mod above;
mod choosing;
mod class_tables;
mod classes;
mod def;
mod examples;
mod link;
mod made;
mod methods;
mod naming;
mod onwards;
mod operand;
mod tables;

pub use class_tables::Classes;
pub use classes::{class_of, number_of};
pub use examples::{calls_are_chosen, supers_go_on};
pub use made::Made;
pub use methods::operation;
pub use onwards::Onwards;
pub use tables::Tables;
