//! The layout of a tree: what is written of each construct, line by line.
#![tactic(auto)]

mod examples;
mod leaf;
mod manner;
mod part;
mod parts;
mod shape;
mod step;
mod steps;
mod words;
mod writer;

pub use examples::{
    blocks_and_clauses_are_indented, classes_are_laid_out, gifts_stand_in_parentheses,
    lines_stand_below_their_statement, literals_and_calls_are_laid_out,
    operands_stand_in_parentheses, signs_stand_in_parentheses,
};
pub use writer::write_tree;
