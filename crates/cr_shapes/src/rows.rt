//! What stands at a row, and around it.
ghost use Rattle.std.specs.Prelude.{◌≡◌, slice_get};
ghost use Rattle.cr_core.specs.Tree as tree;
ghost use Rattle.cr_shapes.specs.Written as spec;

use cr_base::NodeId;
use cr_core::{Form, Row};

/// The form of a row.
pub(crate) fn form_at(rows: &[Row], at: Option<NodeId>) -> Option<Form>
    ensures { result ≡ tree.form_at rows.now at }
{
    match rows.get(at?.0 as usize) {
        Some(row) => Some(row.form),
        None => None,
    }
}

/// The row that a row is a part of.
pub(crate) fn parent_at(rows: &[Row], at: Option<NodeId>) -> Option<NodeId>
    ensures { result ≡ spec.parent_at rows.now at }
{
    match rows.get(at?.0 as usize) {
        Some(row) => row.within.parent,
        None => None,
    }
}

/// The parts of a row.
pub(crate) fn parts_at(rows: &[Row], at: NodeId) -> &[NodeId]
    ensures { result.now ≡ spec.parts_at rows.now at }
{
    match rows.get(at.0 as usize) {
        Some(row) => row.parts.as_slice(),
        None => &[],
    }
}
