//! The commands of `crystal_ec`: from the words of a command line and the bytes of a source to output, status and history.
#![tactic(auto)]

mod command;
mod ending;
mod evaluation;
mod laws;
mod opening;
mod reading_words;
mod report;
mod running;
mod still;
mod sums;
mod words;

pub use command::tool;
pub use ending::{Code, Ending, Refusal, Which};
pub use laws::{one_program, one_refusal, one_saying, program_or_refusal, refusals_are_exact};
pub use reading_words::read_words;
pub use report::{Ran, Report};
pub use running::run_command;
pub use still::still_command;
pub use words::{Job, RunWords, Still, StillWords, Words, WordsFault};

#[cfg(test)]
mod tests;
