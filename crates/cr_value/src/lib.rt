//! The values of the language: what they are, how numbers are reckoned with, and the text that is printed of them.
#![tactic(auto)]

mod arithmetic;
mod division;
mod showing;
#[cfg(test)]
mod tests;
mod text;
mod value;

pub use arithmetic::{
    Width, add, mul, neg, sub, wrap_add, wrap_mul, wrap_sub, wrapped_number_is_unique,
};
pub use division::{Division, floor_div, floor_division_is_unique, floor_mod};
pub use showing::show;
pub use text::{TEXT_LIMIT, Text, TextFault};
pub use value::{CellRef, Fate, Value};
