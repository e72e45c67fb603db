//! The syntax tree, and which lists of tokens spell which tree.
#![tactic(auto)]

mod examples;
mod laws;
mod operator;
mod tree;
mod wanted;
mod within;
mod word;

pub use examples::{
    braces_behind_a_name_are_a_block, command_passes_a_sum, conditional_has_both_branches,
    do_belongs_to_the_command, field_is_assigned, line_is_a_program, modifier_takes_the_statement,
    operators_group_to_the_left, parentheses_leave_no_trace, question_in_a_type_is_nil,
    return_takes_no_modifier, select_receives, setter_stands_in_a_class,
    sign_behind_a_name_begins_an_argument, text_has_an_insertion, words_stand_in_their_place,
};
pub use laws::{
    do_is_not_the_arguments, first_token_is_known, no_command_stands_inside, unless_has_no_elsif,
};
pub use operator::{Assignment, Binary, Unary};
pub use tree::Tree;
pub use wanted::Wanted;
pub use within::Within;
pub use word::{Atom, Path, Word};
