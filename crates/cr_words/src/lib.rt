//! The words of the parser: what a token or two stand for at a cursor, and what a postfix becomes.
#![tactic(auto)]

mod between;
mod lists;
mod looks;
mod operand;
mod operators;
mod words;

pub use between::{comma, separators};
pub use lists::add;
pub use looks::{
    begins_block, begins_left, begins_or, begins_stmt, is_link, is_name, is_spaced, no_sign,
};
pub use operand::{above, indexed, linked, named, whole, yielded};
pub use operators::{
    Level, any_assignment, field_assignment, operator, operator_at, sees_any_operator,
    sees_operator,
};
pub use words::{
    constant, copy, exactly_ident, first_text, ident, instance_variable, last_text, middle_text,
    number, spelled, whole_text,
};
