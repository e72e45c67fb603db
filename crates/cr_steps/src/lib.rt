//! The reductions of control: names, `self`, conditions, loops, jumps, and the ends of loops, calls and blocks. They read and change fibers
//! alone.
#![tactic(auto)]

mod acting;
mod control;
mod deciding;
mod locals;
mod step;

pub use control::{Control, step_control};
