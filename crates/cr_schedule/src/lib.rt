//! The history of a run, and its text: one line for each entry.
#![tactic(auto)]

mod entry;
mod history;
mod page;
mod slot;
mod trace;
mod trace_line;

pub use entry::{Entry, LAST_CLAUSE, LAST_FIBER, MOST_STEPS};
pub use history::History;
pub use trace::{TraceFault, one_history, read_trace, write_trace};

#[cfg(test)]
mod tests;
