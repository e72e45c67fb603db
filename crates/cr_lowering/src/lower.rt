//! The core tree of a program with its prelude.
ghost use Rattle.std.specs.Prelude.{◌≡◌, ◌≤◌, ◌^◌, length, map, IfOk, OnOk};
ghost use Rattle.cr_core.specs.Scopes.{OpensOnce};
ghost use Rattle.cr_core.specs.Tree.{IsCore};
ghost use Rattle.cr_lowering.specs.Blank.{blank};
ghost use Rattle.cr_lowering.specs.Lowering.{IsLowering};
ghost use Rattle.cr_lowering.specs.Made.{AreTold, contents};

use crate::blank::blank_scopes;
use crate::capture::mark_captured;
use cr_base::NoMemory;
use cr_core::{CoreTree, Row, Scope, settle_scopes};
use cr_grammar::Tree;
use cr_rewrite::{Rewritten, rewrite_program};
use std::alloc::Global;

/// Rows and scopes are numbered by a `u32`: more are too many for memory.
fn limit(rewritten: &Rewritten) -> Result<(), NoMemory>
    ensures rows { OnOk result (length rewritten.now.rows.items ≤ 2 ^ 32) }
    ensures scopes { OnOk result (length rewritten.now.scopes.items ≤ 2 ^ 32) }
{
    if rewritten.rows.len() > u32::MAX as usize {
        return Err(NoMemory);
    }
    if rewritten.scopes.len() > u32::MAX as usize {
        return Err(NoMemory);
    }
    Ok(())
}

/// Gives scopes that have their locals alone what the rows tell of them.
fn tell(alloc: Global, rows: &[Row], scopes: &mut [Scope])
    requires once { OpensOnce rows.now }
    requires few { length rows.now ≤ 2 ^ 32 }
    ensures { AreTold rows.now scopes.old scopes.new }
{
    settle_scopes(rows, scopes);
    mark_captured(alloc, rows, scopes);
}

/// The scopes of a rewriting, as its rows tell them.
fn scopes_of(alloc: Global, rewritten: &Rewritten) -> Result<Vec<Scope>, NoMemory>
    requires once { OpensOnce rewritten.now.rows.items }
    requires few { length rewritten.now.rows.items ≤ 2 ^ 32 }
    ensures { IfOk result (λ scopes. AreTold rewritten.now.rows.items (map blank rewritten.now.scopes.items) scopes.items) }
{
    let mut scopes = blank_scopes(alloc, rewritten.scopes.as_slice())?;
    tell(alloc, rewritten.rows.as_slice(), scopes.as_mut_slice());
    Ok(scopes)
}

/// A rewriting with its scopes.
fn whole(rewritten: Rewritten, scopes: Vec<Scope>) -> CoreTree
    requires { IsCore (contents rewritten scopes.items) }
    ensures { result ≡ contents rewritten scopes.items }
{
    let Rewritten {
        rows,
        scopes: _,
        names,
        texts,
    } = rewritten;
    CoreTree::new(rows, scopes, names, texts)
}

/// The core tree of a program with its prelude. Takes `NoMemory` for constructs that stand in one another more than a thousand
/// times, and for 2 ^ 32 rows or scopes or more.
pub fn core_of(alloc: Global, prelude: &Tree, tree: &Tree) -> Result<CoreTree, NoMemory>
    ensures form { IfOk result (λ core. IsLowering prelude.now tree.now core) }
    ensures core { IfOk result (λ core. IsCore core) }
{
    let rewritten = rewrite_program(alloc, prelude, tree)?;
    limit(&rewritten)?;
    let scopes = scopes_of(alloc, &rewritten)?;
    Ok(whole(rewritten, scopes))
}
