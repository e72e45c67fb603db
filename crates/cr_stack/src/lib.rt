//! The term of a fiber as an explicit stack: going on to the next redex changes no term and copies none, and ten thousand calls
//! in progress are no recursion.
#![tactic(auto)]

mod around;
mod forms;
mod going;
mod jumping;
mod lists;
mod stack;

pub use around::{Around, Now, Redex};
pub use jumping::{Exit, Jumped};
pub use stack::Stack;
