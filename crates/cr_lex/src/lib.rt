//! Reads the tokens of a source, or its first fault.
#![tactic(auto)]

mod bytes;
mod keywords;
mod lexer;
mod numbers;
mod operators;
mod source;
mod texts;
mod words;

pub use cr_syntax::LexFault;
pub use source::tokens;

#[cfg(test)]
mod tests;
