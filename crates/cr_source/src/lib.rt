//! A source as every command opens it: the tree of its program, or the first of its refusals.
#![tactic(auto)]

mod fault;
mod laws;
mod program;

pub use fault::{Code, Refusal, SourceFault};
pub use laws::{
    at_most_one_source, each_source_is_answered, fault_of_tokens_comes, never_program_and_refusal,
};
pub use program::program_of;

#[cfg(test)]
mod tests;
