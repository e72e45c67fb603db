//! Decisions about a node, each exact for the lines of its code. None takes memory.
ghost use Rattle.std.specs.Prelude.{◌≡◌, ◌<◌, ◌↔◌, length, IsTrue};
ghost use Rattle.cr_shapes.specs.declared.offence.What.TheVariants as what;
ghost use Rattle.cr_shapes.specs.Obvious as obvious;
ghost use Rattle.cr_shapes.specs.Offences.{IsOffence};

use crate::{depth, literal, spawned};
use cr_base::NodeId;
use cr_core::{CoreTree, Form};

/// Whether a node tells its type at a look.
pub fn is_obvious(core: &CoreTree, node: NodeId) -> bool
    ensures { result ≡ obvious.is_obvious core.now.rows node }
{
    literal::is_obvious(core.rows(), node)
}

/// Whether a node is an array or hash literal without a written type whose entries do not tell one.
pub fn needs_type(core: &CoreTree, node: NodeId) -> bool
    requires { node.0 < length core.now.rows }
    ensures { IsTrue result ↔ IsOffence core.now node.0 what.NeedType }
{
    literal::needs_type(core.rows(), core.row(node))
}

/// Whether a node is a `yield` in a block with which a fiber begins.
pub fn is_yield_in_spawn(core: &CoreTree, node: NodeId) -> bool
    requires { node.0 < length core.now.rows }
    ensures { IsTrue result ↔ IsOffence core.now node.0 what.YieldInSpawn }
{
    let rows = core.rows();
    let row = &rows[node.0 as usize];
    match row.form {
        Form::Yield => spawned::is_spawned(core, row.within.scope),
        _ => false,
    }
}

/// Whether a node is the outermost atom of a written type that is deeper than a type may be.
pub fn is_too_deep(core: &CoreTree, node: NodeId) -> bool
    requires { node.0 < length core.now.rows }
    ensures { IsTrue result ↔ IsOffence core.now node.0 what.TypeTooDeep }
{
    depth::is_too_deep(core.rows(), node, core.row(node))
}
