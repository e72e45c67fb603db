//! What the shapes of a program's rows alone refuse: literals that need a type, `yield` in a block with which a fiber begins, and
//! written types that are too deep; and which forms tell their type at a look.
#![tactic(auto)]

mod depth;
mod examples;
mod least;
mod literal;
mod offence;
mod offences;
mod rows;
mod spawned;

pub use examples::{depth_examples, literal_examples, obvious_examples, yield_examples};
pub use least::first_offence;
pub use offence::{Offence, What};
pub use offences::{is_obvious, is_too_deep, is_yield_in_spawn, needs_type};
