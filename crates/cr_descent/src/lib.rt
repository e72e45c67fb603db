//! The laws of the grammar and its readers: one tree at most, the first unexpected token, the limits.
#![tactic(auto)]

mod examples;
mod laws;
mod limits;

pub use examples::{
    another_tree_is_not_spelled, texts_are_refused, texts_are_spelled, whole_program_is_spelled,
};
pub use laws::{each_reader_is_exact, first_unexpected, longest_front, one_tree, spelled_is_found};
pub use limits::{
    body_depth_is_enough, body_is_answered, depth_is_enough, each_reader_counts, found_is_counted,
    new_cursor_is_limited, one_token_is_unexpected, program_is_accepted, program_is_answered,
    readers_answer, tokens_end_once, too_deep_has_no_way, too_many_has_no_way, within_is_found,
    within_is_found_whole,
};
