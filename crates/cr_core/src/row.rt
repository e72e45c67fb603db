//! A core tree as rows in preorder: a node's row, then the rows of its parts, one part after the other.

use crate::form::{Form, ScopeId};
use crate::listed::Listed;
use cr_base::NodeId;

/// Where a node stands in the text of the prelude or of the source: the byte place that a refusal names.
#[derive(Clone, Copy, Debug, PartialEq, Eq)]
pub struct Place {
    pub prelude: bool,
    pub at: u32,
}

/// What surrounds a row.
#[derive(Clone, Copy, Debug, PartialEq, Eq)]
pub struct Within {
    /// The row that it is a part of.
    pub parent: Option<NodeId>,
    /// The scope that it stands in.
    pub scope: ScopeId,
    /// The innermost `While` of the same scope around it.
    pub turn: Option<NodeId>,
}

/// A core node, with what surrounds it and the rows of its parts. Its own number is its place in the list of rows.
#[derive(Debug, Drop)]
pub struct Row {
    pub form: Form,
    pub place: Place,
    pub within: Within,
    pub parts: Listed<NodeId>,
}

/// One step of a walk round core trees.
#[derive(Clone, Copy, Debug, PartialEq, Eq)]
pub enum Event {
    /// A node begins: its form and its place.
    Open(Form, Place),
    /// The node that began last, and has not ended yet, ends.
    Close,
}
