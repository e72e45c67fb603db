//! The meaning of a program, step by step: terms and states, one reduction of a fiber, the entries of a history, and the ending.
#![tactic(auto)]

mod examples;
mod histories;

pub use examples::{
    a_sum_is_printed, calls_are_counted, choices_meet, fibers_are_counted, fibers_interleave,
    forms_are_counted,
};
pub use histories::{
    channels_are_lawful, channels_evolve, entries_meet, histories_go_on, nothing_after_the_end,
    one_ending, partners_are_met, selects_take_one,
};
