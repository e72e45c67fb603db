//! The core tree of a program with its prelude: the rows of its core form, and the scopes of its locals as those rows tell them.
#![tactic(auto)]

mod blank;
mod capture;
mod laws;
mod lower;

pub use laws::{
    equal_names_have_one_number, found_locals_are_declared, locals_are_in_range,
    named_locals_are_told,
};
pub use lower::core_of;
