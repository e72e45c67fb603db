//! A fiber of a run: its stack, its locals, the captured locals that it made, its context, and how far it is.
#![tactic(auto)]

mod fiber;
mod first;
mod locals;
mod places;
mod progress;

pub use fiber::Fiber;
pub use locals::{Begun, Call, Given, Slot, Variable};
pub use progress::{FiberLook, Progress, Status};
