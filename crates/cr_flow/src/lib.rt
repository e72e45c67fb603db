//! Ways through a program: which variables are assigned before a node on every way, and which locals a spawned block captures.
#![tactic(auto)]

mod assigned;
mod capture;
mod chain;
mod control;
mod outs;
mod rank;
mod reach;
mod several;
mod steps;
mod under;
mod variable;

pub use assigned::{Unassigned, assigned_at_end, assigned_before, unassigned_uses};
pub use capture::captured;
pub use several::unassigned_in;
pub use variable::Variable;

#[cfg(test)]
mod tests;
