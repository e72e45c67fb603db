//! The order of the text, made by one sort.
ghost use Rattle.std.specs.Prelude.{◌≡◌, ◌≤◌, ◌^◌, length, map, None, Some, IfOk};
ghost use Rattle.cr_core.specs.Order.{AreInOrder, is_in};
ghost use Rattle.cr_core.specs.Placed.{placed_in, row_of};

use crate::core_tree::CoreTree;
use crate::form::ScopeId;
use crate::row::Row;
use cr_base::{NoMemory, NodeId};
use std::alloc::Global;

/// A row by what it is sorted by.
#[derive(Clone, Copy, Debug, PartialEq, Eq, PartialOrd, Ord)]
struct Placed {
    source: bool,
    at: u32,
    row: u32,
}

impl CoreTree {
    /// All nodes in the order of the text: those of the prelude first, then by place, at one place a node before its parts.
    pub fn in_order(&self, alloc: Global) -> Result<Vec<NodeId>, NoMemory>
        ensures { IfOk result (λ nodes. AreInOrder self.now.rows None nodes.items) }
    {
        sorted(alloc, self.rows(), None)
    }

    /// The nodes that stand in a scope, in the order of the text. Those of blocks in it stand in scopes of their own.
    pub fn in_order_of(&self, alloc: Global, scope: ScopeId) -> Result<Vec<NodeId>, NoMemory>
        ensures { IfOk result (λ nodes. AreInOrder self.now.rows (Some scope) nodes.items) }
    {
        sorted(alloc, self.rows(), Some(scope))
    }
}

fn is_in(scope: Option<ScopeId>, row: &Row) -> bool
    ensures { result ≡ is_in scope row.now }
{
    match scope {
        None => true,
        Some(scope) => row.within.scope == scope,
    }
}

fn gather(alloc: Global, rows: &[Row], scope: Option<ScopeId>) -> Result<Vec<Placed>, NoMemory>
    requires { length rows.now ≤ 2 ^ 32 }
    ensures { IfOk result (λ placed. placed.items ≡ placed_in scope 0 rows.now) }
{
    let mut placed = Vec::new(alloc);
    for (number, row) in rows.iter().enumerate() {
        if is_in(scope, row) {
            placed.push(Placed {
                source: !row.place.prelude,
                at: row.place.at,
                row: number as u32,
            })?;
        }
    }
    Ok(placed)
}

fn sorted(alloc: Global, rows: &[Row], scope: Option<ScopeId>) -> Result<Vec<NodeId>, NoMemory>
    requires { length rows.now ≤ 2 ^ 32 }
    ensures { IfOk result (λ nodes. AreInOrder rows.now scope nodes.items) }
{
    let mut placed = gather(alloc, rows, scope)?;
    placed.sort()?;
    nodes(alloc, &placed)
}

fn nodes(alloc: Global, placed: &[Placed]) -> Result<Vec<NodeId>, NoMemory>
    ensures { IfOk result (λ nodes. nodes.items ≡ map row_of placed.now) }
{
    Ok(placed.iter().map(|it| NodeId(it.row)).collect(alloc)?)
}
