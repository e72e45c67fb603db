//! The choice of a method: the most special match of the first place of lookup that has one.
#![tactic(auto)]

mod calm;
mod choice;
mod method;
mod places;
mod rules;

pub use calm::{clashes, is_calm};
pub use choice::choose;
pub use method::{Method, MethodList, Parameters, Place, Sought, Takes};
pub use places::{first_place_with, places_behind, places_of_call};

#[cfg(test)]
mod tests;
