//! The core tree of a program, on which every floor above stands: rows in the order of a walk, the scopes of the locals, names
//! and texts; and how rows are made from a stream of openings and closings.
#![tactic(auto)]

mod core_tree;
mod form;
mod laws;
mod listed;
mod order;
mod row;
mod scope;
mod settle;
mod walk;

pub use core_tree::CoreTree;
pub use form::{Form, Local, ScopeId, TextId};
pub use laws::{rows_are_an_arena, rows_are_the_trees};
pub use listed::Listed;
pub use row::{Event, Place, Row, Within};
pub use scope::{Scope, ScopeKind, Slot};
pub use settle::settle_scopes;
pub use walk::link;

#[cfg(test)]
mod tests;
