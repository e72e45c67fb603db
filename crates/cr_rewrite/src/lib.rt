//! The core form of a program, by the table of rewritings: terms, the recursion, and the whole.
#![tactic(auto)]

mod program;
mod rewrite;
mod rewritten;
mod terms;
mod texts;

pub use program::rewrite_program;
pub use rewritten::Rewritten;
