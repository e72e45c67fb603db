//! Tests of what runs: source texts, and what the reductions of their programs come to.
#![tactic(auto)]

#[cfg(test)]
mod tests;
