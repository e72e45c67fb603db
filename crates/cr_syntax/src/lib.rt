//! Tokens, which tokens or which fault a source has, and names.
#![tactic(auto)]

mod fault;
mod laws;
mod look;
mod names;
mod open;
mod text;
mod token;
mod vocabulary;

pub use fault::LexFault;
pub use laws::{
    at_most_one_fault, at_most_one_list, keywords_are_spelled, never_tokens_and_fault,
    operators_are_spelled, tokens_or_fault,
};
pub use look::TokenLook;
pub use names::Names;
pub use open::Open;
pub use text::TokenText;
pub use token::{MAX_SOURCE_BYTES, Span, Token, TokenKind};
pub use vocabulary::{KEYWORDS, OPERATORS};

#[cfg(test)]
mod tests;
