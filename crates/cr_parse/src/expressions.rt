//! What reads expressions and statements in the same surroundings.

use cr_bodies::Parser;
use cr_grammar::Within;

/// The readers of expressions and statements, with what reads what is inside them and what surrounds them.
#[derive(Clone, Copy)]
pub struct Expressions<F> {
    pub parser: Parser<F>,
    pub within: Within,
}
