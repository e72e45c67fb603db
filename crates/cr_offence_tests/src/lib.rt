//! Tests of what refuses a program that the grammar takes: source texts, each with its first offence.
#![tactic(auto)]

#[cfg(test)]
mod tests;
