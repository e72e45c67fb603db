//! The parser of declarations and whole programs: a function for each reader, with the outcome of its reader or want of memory.
#![tactic(auto)]

mod calls;
mod classes;
mod declarations;
mod laws;
mod lists;
mod members;
mod methods;
mod names;
mod programs;

pub use calls::{body, program};
pub use declarations::Declarations;
pub use laws::body_is_accepted;
