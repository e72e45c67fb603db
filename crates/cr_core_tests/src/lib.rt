//! Tests of the core tree as a whole: source texts, and the core form that each of them has.
#![tactic(auto)]

#[cfg(test)]
mod tests;
