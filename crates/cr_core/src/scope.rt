//! Scopes: what locals a piece of code has of its own, and which others it sees.

use crate::form::ScopeId;
use crate::listed::Listed;
use cr_base::{NameId, NodeId};

/// What a scope belongs to.
#[derive(Clone, Copy, Debug, PartialEq, Eq)]
pub enum ScopeKind {
    /// The top level.
    Main,
    /// A `def`.
    Method,
    /// The block of a call.
    Block,
    /// A block that a fiber begins with.
    Spawn,
}

/// A local of a scope.
#[derive(Clone, Copy, Debug, PartialEq, Eq)]
pub struct Slot {
    /// Its name. None for a local that the text does not name.
    pub name: Option<NameId>,
    /// Whether a block that a fiber begins with names it from inside.
    pub captured: bool,
}

/// A scope. Parameters are its first slots.
#[derive(Debug, Drop)]
pub struct Scope {
    pub kind: ScopeKind,
    /// The scope around it, where its locals are seen in this one.
    pub home: Option<ScopeId>,
    /// The node that it belongs to: the call, `new` or `spawn` that has the block, the `def`, or the program.
    pub site: NodeId,
    /// The node of its body.
    pub body: NodeId,
    /// How many of its slots are parameters.
    pub parameters: usize,
    pub slots: Listed<Slot>,
}
