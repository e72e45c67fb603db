//! The state in which a program runs: its fibers, the cells, the contexts, and what was written.
#![tactic(auto)]

mod contexts;
mod state;

pub use state::{State, start};
