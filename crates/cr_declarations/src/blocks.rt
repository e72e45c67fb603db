//! Which methods take a block: those that have a `yield`.
ghost use Rattle.std.specs.Prelude.{◌≡◌, ◌<◌, ◌∷◌, ◌++◌, [], length, slice_set, true, IfOk};
ghost use Rattle.cr_core.specs.Tree.{IsCore};
ghost use Rattle.cr_declarations.specs.Blocks.{SayWhichYield};
ghost use Rattle.cr_declarations.specs.Marking.{AreOutermost, is_yield, marked, outermost_of};

use cr_base::NoMemory;
use cr_core::{CoreTree, Form, Row, ScopeId};
use std::alloc::Global;

/// For each scope, by its number, whether it is that of a method, or of the top level, that has a `yield`, in itself or in a block.
pub fn scopes_with_yield(alloc: Global, core: &CoreTree) -> Result<Vec<bool>, NoMemory>
    ensures { IfOk result (λ flags. SayWhichYield core.now flags.items) }
{
    let rows = core.rows();
    let outermost = outermost_scopes(alloc, core)?;
    let mut flags = vec![in alloc; false; core.scope_count()]?;
    for row in rows {
        mark(outermost.as_slice(), flags.as_mut_slice(), row);
    }
    Ok(flags)
}

/// The outermost scope of each scope.
fn outermost_scopes(alloc: Global, core: &CoreTree) -> Result<Vec<ScopeId>, NoMemory>
    requires { IsCore core.now }
    ensures many { IfOk result (λ list. length list.items ≡ length core.now.scopes) }
    ensures each { IfOk result (λ list. AreOutermost core.now.scopes list.items) }
{
    let mut list = Vec::new(alloc);
    for number in 0..core.scope_count() {
        let scope = ScopeId(number as u32);
        let outermost = outermost_scope(core, list.as_slice(), scope);
        list.push(outermost)?;
    }
    Ok(list)
}

/// The outermost scope of the next scope, where the list has those before it.
fn outermost_scope(core: &CoreTree, list: &[ScopeId], scope: ScopeId) -> ScopeId
    requires core { IsCore core.now }
    requires next { scope.0 ≡ length list.now }
    requires there { scope.0 < length core.now.scopes }
    requires before { AreOutermost core.now.scopes list.now }
    ensures { AreOutermost core.now.scopes (list.now ++ result ∷ []) }
{
    match core.scope(scope).home {
        None => scope,
        Some(home) => outermost_of(list, home),
    }
}

fn outermost_of(list: &[ScopeId], scope: ScopeId) -> ScopeId
    ensures { result ≡ outermost_of list.now scope }
{
    match list.get(scope.0 as usize) {
        Some(outermost) => *outermost,
        None => ScopeId(0),
    }
}

fn mark(outermost: &[ScopeId], flags: &mut [bool], row: &Row)
    ensures { flags.new ≡ marked outermost.now flags.old row.now }
{
    if is_yield(row.form) {
        set(flags, outermost_of(outermost, row.within.scope));
    }
}

fn set(flags: &mut [bool], scope: ScopeId)
    ensures { flags.new ≡ slice_set flags.old scope.0 true }
{
    let number = scope.0 as usize;
    if number < flags.len() {
        flags[number] = true;
    }
}

fn is_yield(form: Form) -> bool
    ensures { result ≡ is_yield form }
{
    matches!(form, Form::Yield)
}
