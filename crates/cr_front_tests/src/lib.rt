//! Tests of the front as a whole: source texts, and the tree or the fault that each of them has.
#![tactic(auto)]

#[cfg(test)]
mod tests;
