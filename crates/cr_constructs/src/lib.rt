//! Core forms of conditions, loops, jumps, `case`, `select`, assignments and declarations, with a function for what nests.
#![tactic(auto)]

mod assigning;
mod constructs;
mod control;
mod declaring;

pub use constructs::Constructs;
