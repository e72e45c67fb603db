//! Methods that are declared.
use cr_base::{NameId, NodeId};
use cr_core::ScopeId;
use cr_lookup::Place;

/// A method that is declared.
#[derive(Clone, Copy, Debug)]
pub struct Def {
    /// The row of its `def`.
    pub node: NodeId,
    pub name: NameId,
    pub scope: ScopeId,
    /// The place that it stands in.
    pub place: Place,
}
