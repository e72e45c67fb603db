//! What is assigned on every way, for many variables at once.
ghost use Rattle.std.specs.Prelude.{◌≡◌, ◌<◌, length, slice_get, Some, IfOk, All};
ghost use Rattle.cr_core.specs.declared.scope.Scope.{Scope};
ghost use Rattle.cr_flow.specs.Under.{AreFirsts};
ghost use Rattle.cr_flow.specs.Steps.{IsStep};
ghost use Rattle.cr_flow.specs.Several.{IsUnassigned, AreUnassigned};

use crate::assigned::{Unassigned, unassigned_uses};
use crate::steps::{Step, reach_from, steps};
use crate::under::{end_of, firsts, pasts};
use crate::variable::Variable;
use cr_base::{NameId, NoMemory};
use cr_core::{CoreTree, ScopeId};
use std::alloc::Global;

fn unassigned(
    tree: &CoreTree,
    scope: ScopeId,
    ranks: &[Option<u32>],
    steps: &[Step],
    firsts: &[usize],
    z: NameId,
    variable: Variable,
) -> Unassigned
    requires scope { scope.0 < length tree.now.scopes }
    requires steps { (s : Scope) → slice_get tree.now.scopes scope.0 ≡ Some s → All (IsStep tree.now.rows ranks.now z s.body) steps.now }
    requires firsts { (s : Scope) → slice_get tree.now.scopes scope.0 ≡ Some s → AreFirsts tree.now.rows s.body.0 firsts.now }
    ensures { IsUnassigned tree.now scope ranks.now variable result }
{
    let Variable::Field(name) = variable else {
        return unassigned_uses(tree, scope, variable, ranks);
    };
    let body = tree.scope(scope).body;
    let all = reach_from(tree.rows(), ranks, steps, firsts, z, body, name);
    Unassigned {
        first_use: all.found,
        end: all.reaches_end(),
    }
}

/// What `unassigned_uses` says of each of the variables, in their order, or want of memory. What stands in a body before the
/// statement that names an instance variable first is walked once for all of them.
pub fn unassigned_in(
    alloc: Global,
    tree: &CoreTree,
    scope: ScopeId,
    variables: &[Variable],
    ranks: &[Option<u32>],
) -> Result<Vec<Unassigned>, NoMemory>
    requires { scope.0 < length tree.now.scopes }
    ensures { IfOk result (λ found. AreUnassigned tree.now scope ranks.now variables.now found.items) }
{
    let rows = tree.rows();
    let body = tree.scope(scope).body;
    let low = body.0 as usize;
    let end = end_of(rows, body);
    let last = tree.names().len();
    let z = NameId(last.min(u32::MAX as usize) as u32);
    let pasts = pasts(alloc, rows, low, end)?;
    let firsts = firsts(alloc, rows, low, end, last)?;
    let steps = steps(alloc, rows, end, pasts.as_slice(), ranks, z, body)?;
    let mut found = Vec::with_capacity(alloc, variables.len())?;
    for variable in variables {
        let one = unassigned(
            tree,
            scope,
            ranks,
            steps.as_slice(),
            firsts.as_slice(),
            z,
            *variable,
        );
        found.push(one)?;
    }
    Ok(found)
}
