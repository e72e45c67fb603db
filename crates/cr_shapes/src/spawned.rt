//! Blocks with which fibers begin.
ghost use Rattle.std.specs.Prelude.{◌≡◌, ◌<◌, ◌↔◌, length, IsTrue};
ghost use Rattle.cr_core.specs.Tree.{IsCore, is_spawn_kind};
ghost use Rattle.cr_shapes.specs.Homes.{IsSpawnedScope};

use cr_core::{CoreTree, ScopeId, ScopeKind};

/// Whether a scope is that of a block with which a fiber begins, or of a block in one.
pub(crate) fn is_spawned(core: &CoreTree, scope: ScopeId) -> bool
    requires core { IsCore core.now }
    requires there { scope.0 < length core.now.scopes }
    ensures { IsTrue result ↔ IsSpawnedScope core.now.scopes scope.0 }
{
    let mut at = Some(scope);
    'outwards: while let Some(around) = at {
        let scope = core.scope(around);
        if is_spawn_kind(scope.kind) {
            return true;
        }
        at = scope.home;
    }
    false
}

fn is_spawn_kind(kind: ScopeKind) -> bool
    ensures { result ≡ is_spawn_kind kind }
{
    match kind {
        ScopeKind::Spawn => true,
        ScopeKind::Main | ScopeKind::Method | ScopeKind::Block => false,
    }
}
