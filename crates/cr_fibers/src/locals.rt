//! Locals: what the names of the top level, of a call or of a block hold.

use cr_base::{FiberId, MethodId, NodeId};
use cr_value::Value;

/// A captured local: the fiber that made it, and its number there.
#[derive(Clone, Copy, Debug, PartialEq, Eq)]
pub struct Variable {
    pub fiber: FiberId,
    pub number: usize,
}

/// What a name holds.
#[derive(Drop)]
pub enum Slot {
    /// A value of its own.
    Own(Value),
    /// What a captured local holds.
    Shared(Variable),
}

/// A block that a call was given.
#[derive(Clone, Copy, Debug, PartialEq, Eq)]
pub struct Given {
    /// Its node.
    pub block: NodeId,
    /// The place of the locals among which it was written.
    pub home: usize,
}

/// The locals of the top level, or of a call or a block in progress. Receiver, method and given block are those of the call in which
/// a block was written.
#[derive(Drop)]
pub(crate) struct Locals {
    /// The place of the locals around those of a block. Nothing lies around the others.
    pub(crate) home: Option<usize>,
    pub(crate) slots: Vec<Slot>,
    pub(crate) receiver: Option<Value>,
    pub(crate) method: Option<MethodId>,
    pub(crate) given: Option<Given>,
}

/// What the names of a scope hold at its start, and the captured locals that are new then.
#[derive(Drop)]
pub struct Begun {
    pub(crate) slots: Vec<Slot>,
    pub(crate) made: Vec<Value>,
}

/// A call that begins.
#[derive(Drop)]
pub struct Call {
    /// The object that it gives, where it is that of an `initialize`.
    pub gives: Option<Value>,
    pub receiver: Option<Value>,
    pub method: MethodId,
    pub given: Option<Given>,
}
