//! The locals of a scope that a spawned block captures.
ghost use Rattle.std.specs.Prelude.{◌≡◌, ◌<◌, length, IfOk};
ghost use Rattle.cr_flow.specs.Captured.{AreCaptured, flagged};

use cr_base::NoMemory;
use cr_core::{CoreTree, ScopeId, Slot};
use std::alloc::Global;

/// The slots of the scope whose locals some node names from inside a block that a fiber begins with, each once, in order.
pub fn captured(alloc: Global, tree: &CoreTree, scope: ScopeId) -> Result<Vec<usize>, NoMemory>
    requires { scope.0 < length tree.now.scopes }
    ensures { IfOk result (λ slots. AreCaptured tree.now scope slots.items) }
{
    let _ = tree.rows();
    flagged(alloc, tree.scope(scope).slots.as_slice())
}

pub(crate) fn flagged(alloc: Global, slots: &[Slot]) -> Result<Vec<usize>, NoMemory>
    ensures { IfOk result (λ found. found.items ≡ flagged 0 slots.now) }
{
    let mut found = Vec::new(alloc);
    for (number, slot) in slots.iter().enumerate() {
        if slot.captured {
            found.push(number)?;
        }
    }
    Ok(found)
}
