//! Locals that a spawned block captures, marked in one pass over the rows.
ghost use Rattle.std.specs.Prelude.{◌≡◌, Some};
ghost use Rattle.cr_core.specs.Tree as tree;
ghost use Rattle.cr_lowering.specs.Marking as spec;

use cr_core::{Form, Listed, Local, Row, Scope, ScopeId, ScopeKind, Slot};
use std::alloc::Global;

/// Marks each local that some row names from inside a block that a fiber begins with.
pub fn mark_captured(alloc: Global, rows: &[Row], scopes: &mut [Scope])
    ensures { scopes.new ≡ spec.marked_from rows.now scopes.old }
{
    for row in rows {
        mark_at(alloc, row, scopes);
    }
}

fn mark_at(alloc: Global, row: &Row, scopes: &mut [Scope])
    ensures { scopes.new ≡ spec.marked_at row.now scopes.old }
{
    let Some(local) = local_of(row.form) else {
        return;
    };
    if leaves_spawn(scopes, local.up, row.within.scope) {
        mark(alloc, local, scopes);
    }
}

/// The local that a form names, where it names one.
fn local_of(form: Form) -> Option<Local>
    ensures { result ≡ tree.local_of form }
{
    match form {
        Form::Local(local) | Form::Set(local) => Some(local),
        _ => None,
    }
}

/// Whether the way outwards over so many scopes leaves a block that a fiber begins with.
fn leaves_spawn(scopes: &[Scope], up: u32, from: ScopeId) -> bool
    ensures { result ≡ tree.leaves_spawn scopes.now up (Some from) }
{
    let mut at = Some(from);
    for i in 0..up {
        if is_spawn(scopes, at) {
            return true;
        }
        at = home_of(scopes, at);
    }
    false
}

fn is_spawn(scopes: &[Scope], at: Option<ScopeId>) -> bool
    ensures { result ≡ tree.is_spawn (tree.scope_at scopes.now at) }
{
    let Some(at) = at else {
        return false;
    };
    match scopes.get(at.0 as usize) {
        Some(scope) => is_spawn_kind(scope.kind),
        None => false,
    }
}

fn is_spawn_kind(kind: ScopeKind) -> bool
    ensures { result ≡ tree.is_spawn_kind kind }
{
    match kind {
        ScopeKind::Spawn => true,
        ScopeKind::Main | ScopeKind::Method | ScopeKind::Block => false,
    }
}

fn home_of(scopes: &[Scope], at: Option<ScopeId>) -> Option<ScopeId>
    ensures { result ≡ tree.home_by (tree.scope_at scopes.now at) }
{
    match scopes.get(at?.0 as usize) {
        Some(scope) => scope.home,
        None => None,
    }
}

fn mark(alloc: Global, local: Local, scopes: &mut [Scope])
    ensures { scopes.new ≡ spec.marked local scopes.old }
{
    let number = local.scope.0 as usize;
    if number < scopes.len() {
        mark_slot(alloc, local.slot as usize, &mut scopes[number]);
    }
}

fn mark_slot(alloc: Global, slot: usize, scope: &mut Scope)
    ensures { scope.new ≡ spec.marked_scope slot scope.old }
{
    let mut slots = std::mem::replace(&mut scope.slots, Listed::new(alloc)).into_vec();
    set_captured(&mut slots, slot);
    scope.slots = Listed::of(slots);
}

fn set_captured(slots: &mut Vec<Slot>, at: usize)
    ensures { slots.new.items ≡ spec.changed spec.marked_slot at slots.old.items }
{
    if let Some(slot) = slots.get_mut(at) {
        slot.captured = true;
    }
}
