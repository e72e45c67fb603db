//! How far a fiber is, and what is told of it.
ghost use Rattle.std.specs.Prelude.{◌≡◌, is_some, if◌then◌else◌};
ghost use Rattle.cr_meaning.specs.World.{World};
ghost use Rattle.cr_meaning.specs.Term.{literal, tree};
ghost use Rattle.cr_meaning.specs.State.{Status as Told, Done, status_with};
ghost use Rattle.cr_stack.specs.Neat.{IsNeat, IsNeatNow};
ghost use Rattle.cr_stack.specs.Layers.{now_of, term};

use cr_base::{ContextId, NodeId};
use cr_core::{Form, Row};
use cr_stack::{Now, Stack};

/// How far a fiber is, as it is told.
#[derive(Clone, Copy, Debug, PartialEq, Eq)]
pub enum Status {
    /// It can be resumed.
    Ready,
    /// It can reduce.
    Current,
    /// It stands at an operation that was blocked.
    Waiting,
    /// It came to its end, or an exception ended it.
    Done,
}

/// How far a fiber is, and of one that is done, how it ended.
#[derive(Clone, Copy, Debug, PartialEq, Eq)]
pub enum Progress {
    /// It can be resumed.
    Ready,
    /// It can reduce.
    Current,
    /// It stands at an operation that was blocked.
    Waiting,
    /// It came to its end: its term is a value.
    Finished,
    /// An exception ended it.
    Raised,
}

/// What is told of a fiber.
#[derive(Clone, Copy, Debug, PartialEq, Eq)]
pub struct FiberLook {
    /// The context that it runs in.
    pub context: ContextId,
    /// How far it is.
    pub status: Status,
}

/// Whether the term of a stack is a value.
pub(crate) fn has_ended(rows: &[Row], stack: &Stack) -> bool
    requires { IsNeat rows.now stack.now }
    ensures { (P : World) → P.rows ≡ rows.now → (status : Told) → status_with (term P stack.now) status ≡ (if result then Done else status) }
{
    match stack.alone() {
        Some(whole) => is_value(rows, whole),
        None => false,
    }
}

/// Whether a part is a value.
fn is_value(rows: &[Row], now: &Now) -> bool
    requires { IsNeatNow rows.now now.now }
    ensures { (P : World) → P.rows ≡ rows.now → (status : Told) → status_with (now_of P now.now) status ≡ (if result then Done else status) }
{
    match now {
        Now::Node(node) => is_literal_at(rows, *node),
        Now::Value(_) => true,
        Now::Ready(..) | Now::Choice(..) | Now::Sent { .. } => false,
    }
}

/// Whether the core tree of a node is a value: that of a literal is, and that of a row that is not there.
pub(crate) fn is_literal_at(rows: &[Row], at: NodeId) -> bool
    ensures { (P : World) → P.rows ≡ rows.now → (status : Told) → status_with (tree P at) status ≡ (if result then Done else status) }
{
    match rows.get(at.0 as usize) {
        Some(row) => is_literal(row.form),
        None => true,
    }
}

/// Whether nodes of this form are values.
fn is_literal(form: Form) -> bool
    ensures { (P : World) → result ≡ is_some (literal P form) }
{
    match form {
        Form::Nil | Form::True | Form::False | Form::Int32(_) | Form::Int64(_) | Form::Text(_) =>
            true,
        _ => false,
    }
}
