//! Chains of rows that no limit bounds, which are walked by loops: statements and `elsif` go on as their last part, and the parts
//! of a text with insertions stand in one another's first part.
ghost use Rattle.std.specs.Prelude.{◌≡◌, slice_get, Some, None};
ghost use Rattle.cr_flow.specs.Chain as chain;
ghost use Rattle.cr_flow.specs.Chain.{LeadsTo, IsForward};

use crate::control::{heads, is_test};
use cr_base::NodeId;
use cr_core::{Form, Row};

/// What comes before a row goes on as its last part: a statement, or a condition with what is done where it holds.
#[derive(Clone, Copy, Debug, PartialEq, Eq)]
pub(crate) struct Trail {
    pub first: NodeId,
    pub branch: Option<NodeId>,
    pub rest: NodeId,
}

pub(crate) fn trail_at(rows: &[Row], n: NodeId) -> Option<Trail>
    ensures { result ≡ chain.trail_in (slice_get rows.now n.0) }
{
    let Some(row) = rows.get(n.0 as usize) else {
        return None;
    };
    trail_of(row.form, row.parts.as_slice())
}

fn trail_of(form: Form, parts: &[NodeId]) -> Option<Trail>
    ensures { result ≡ chain.trail_of form parts.now }
{
    match form {
        Form::Seq => statement_of(parts),
        Form::If => condition_of(parts),
        _ => None,
    }
}

fn statement_of(parts: &[NodeId]) -> Option<Trail>
    ensures { result ≡ chain.statement_of parts.now }
{
    match parts {
        [first, rest] => Some(Trail {
            first: *first,
            branch: None,
            rest: *rest,
        }),
        _ => None,
    }
}

fn condition_of(parts: &[NodeId]) -> Option<Trail>
    ensures { result ≡ chain.condition_of parts.now }
{
    match parts {
        [first, branch, rest] => Some(Trail {
            first: *first,
            branch: Some(*branch),
            rest: *rest,
        }),
        _ => None,
    }
}

/// The first part of a row that takes its parts in order.
fn first_part(rows: &[Row], n: NodeId) -> Option<NodeId>
    ensures { result ≡ chain.first_in (slice_get rows.now n.0) }
{
    let Some(row) = rows.get(n.0 as usize) else {
        return None;
    };
    if is_test(row.form) {
        None
    } else {
        first_of(heads(row.form, row.parts.as_slice()))
    }
}

fn first_of(parts: &[NodeId]) -> Option<NodeId>
    ensures { result ≡ slice_get parts.now 0 }
{
    match parts.get(0) {
        Some(part) => Some(*part),
        None => None,
    }
}

/// Where first parts end that begin at this row.
pub(crate) fn foremost(rows: &[Row], n: NodeId) -> NodeId
    requires { IsForward rows.now }
    ensures down { LeadsTo rows.now n result }
    ensures last { chain.first_in (slice_get rows.now result.0) ≡ None }
{
    let mut at = n;
    'down: while let Some(part) = first_part(rows, at) {
        at = part;
    }
    at
}

pub(crate) fn parent(rows: &[Row], n: NodeId) -> Option<NodeId>
    ensures { result ≡ chain.parent_in (slice_get rows.now n.0) }
{
    match rows.get(n.0 as usize) {
        Some(row) => row.within.parent,
        None => None,
    }
}
