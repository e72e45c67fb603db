//! The table of rewritings, and what makes core trees by it: the walk so far, the names behind it, and lists of constructs.
#![tactic(auto)]

mod forms;
mod lists;
mod maker;
mod naming;
mod rewriter;
mod slots;
mod view;
mod words;

pub use forms::{
    array_form, bare_form, call_form, def_form, hash_form, is_there, local_form, made_form,
    new_form, parameter_form, sent_form, spawn_form,
};
pub use lists::{is_bare, said, until_last};
pub use maker::Maker;
pub use naming::{Apart, Naming, Opened, Passed, later_local, settle};
pub use rewriter::Rewriter;
pub use slots::Slots;
pub use view::View;
pub use words::{Operation, Word, index_text, operation_of, operator_text, word_of};
