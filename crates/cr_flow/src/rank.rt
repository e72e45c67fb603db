//! What is asked for: a node, or nodes by their ranks.
ghost use Rattle.std.specs.Prelude.{◌≡◌, slice_get};
ghost use Rattle.cr_flow.specs.Uses as uses;

use crate::variable::Variable;
use cr_base::NodeId;
use cr_core::{Form, Row};

fn is_asked(only: Option<NodeId>, n: NodeId) -> bool
    ensures { result ≡ uses.is_asked only n }
{
    match only {
        Some(only) => n == only,
        None => false,
    }
}

/// A read of another variable is no use of this one.
fn reads_other(x: Variable, form: Form) -> bool
    ensures { result ≡ uses.reads_other x form }
{
    match form {
        Form::Local(local) => match x {
            Variable::Local { scope, slot } => !(local.scope == scope && local.slot == slot),
            Variable::Field(_) => true,
        },
        Form::Field(read) => match x {
            Variable::Field(name) => read != name,
            Variable::Local { .. } => true,
        },
        _ => false,
    }
}

fn rank(rows: &[Row], ranks: &[Option<u32>], x: Variable, n: NodeId) -> Option<u32>
    ensures { result ≡ uses.rank rows.now ranks.now x n }
{
    let Some(Some(rank)) = ranks.get(n.0 as usize) else {
        return None;
    };
    let Some(row) = rows.get(n.0 as usize) else {
        return None;
    };
    if reads_other(x, row.form) {
        None
    } else {
        Some(*rank)
    }
}

/// The rank of a node: 0 of the one that is asked for, else what is told of it as a use of the variable.
pub(crate) fn asked(
    rows: &[Row],
    only: Option<NodeId>,
    ranks: &[Option<u32>],
    x: Variable,
    n: NodeId,
) -> Option<u32>
    ensures { result ≡ uses.asked rows.now only ranks.now x n }
{
    if is_asked(only, n) {
        Some(0)
    } else {
        rank(rows, ranks, x, n)
    }
}
