//! What is assigned on every way.
ghost use Rattle.std.specs.Prelude.{◌≡◌, ◌↔◌, ◌<◌, length, IsTrue, Some};
ghost use Rattle.cr_flow.specs.Ways.{Acts, End};
ghost use Rattle.cr_flow.specs.Assigned.{IsAssigned, is_parameter};
ghost use Rattle.cr_flow.specs.Uses.{IsFirstUse};

use crate::reach::reach;
use crate::variable::Variable;
use cr_base::NodeId;
use cr_core::{CoreTree, ScopeId};

fn is_parameter(scope: ScopeId, parameters: usize, variable: Variable) -> bool
    ensures { result ≡ is_parameter scope parameters variable }
{
    match variable {
        Variable::Local { scope: of, slot } => of == scope && (slot as usize) < parameters,
        Variable::Field(_) => false,
    }
}

/// Whether on every way from the start of the scope to the moment at which the node acts, after its parts, the variable
/// was assigned. What no way reaches counts as assigned, and so does a parameter of the scope. Takes no memory.
pub fn assigned_before(tree: &CoreTree, scope: ScopeId, variable: Variable, node: NodeId) -> bool
    requires { scope.0 < length tree.now.scopes }
    ensures { IsTrue result ↔ IsAssigned tree.now scope variable (Acts node) }
{
    let it = tree.scope(scope);
    if is_parameter(scope, it.parameters, variable) {
        return true;
    }
    match reach(tree.rows(), Some(node), &[], variable, it.body).found {
        None => true,
        Some(_) => false,
    }
}

/// Whether on every way from the start of the scope to its end the variable was assigned: to the end of its body, and to
/// each `return`, and `next` outside loops, that ends it. Takes no memory.
pub fn assigned_at_end(tree: &CoreTree, scope: ScopeId, variable: Variable) -> bool
    requires { scope.0 < length tree.now.scopes }
    ensures { IsTrue result ↔ IsAssigned tree.now scope variable End }
{
    let it = tree.scope(scope);
    if is_parameter(scope, it.parameters, variable) {
        true
    } else {
        !reach(tree.rows(), None, &[], variable, it.body).reaches_end()
    }
}

/// Where ways through a scope lead on which a variable is not assigned.
#[derive(Clone, Copy, Debug, PartialEq, Eq)]
pub struct Unassigned {
    /// The least rank of a use to which such a way leads.
    pub first_use: Option<u32>,
    /// Whether such a way leads to the end of the scope.
    pub end: bool,
}

/// The first use of the variable, of those that have a rank, to whose act some way from the start of the scope leads without an
/// assignment, and whether some leads to the end of the scope: all in one pass. The ranks are told by the nodes' numbers. A read of
/// another variable is no use, whatever its rank. Takes no memory.
pub fn unassigned_uses(
    tree: &CoreTree,
    scope: ScopeId,
    variable: Variable,
    ranks: &[Option<u32>],
) -> Unassigned
    requires { scope.0 < length tree.now.scopes }
    ensures first_use { IsFirstUse tree.now scope variable ranks.now result.first_use }
    ensures end { IsTrue result.end ↔ ¬ (IsAssigned tree.now scope variable End) }
{
    let it = tree.scope(scope);
    if is_parameter(scope, it.parameters, variable) {
        return Unassigned {
            first_use: None,
            end: false,
        };
    }
    let all = reach(tree.rows(), None, ranks, variable, it.body);
    Unassigned {
        first_use: all.found,
        end: all.reaches_end(),
    }
}
