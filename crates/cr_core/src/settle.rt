//! Scopes as the rows that open them tell: their kinds, homes, sites, bodies and numbers of parameters.
ghost use Rattle.std.specs.Prelude.{◌≡◌, ◌≤◌, ◌^◌, length};
ghost use Rattle.cr_core.specs.Arena.{opening};
ghost use Rattle.cr_core.specs.Scopes.{OpensOnce, AreSettled};
ghost use Rattle.cr_core.specs.Settle.{opened_scope, settled_at};
ghost use Rattle.cr_core.specs.Tree as tree;

use crate::form::{Form, ScopeId};
use crate::row::Row;
use crate::scope::{Scope, ScopeKind};
use cr_base::NodeId;

/// Gives each scope that a row opens all but its slots, which it keeps. Any other scope stays as it is. Takes no memory.
pub fn settle_scopes(rows: &[Row], scopes: &mut [Scope])
    requires once { OpensOnce rows.now }
    requires few { length rows.now ≤ 2 ^ 32 }
    ensures { AreSettled rows.now scopes.old scopes.new }
{
    for (at, row) in rows.iter().enumerate() {
        settle(rows, NodeId(at as u32), row, scopes);
    }
}

fn settle(rows: &[Row], at: NodeId, row: &Row, scopes: &mut [Scope])
    ensures { scopes.new ≡ settled_at rows.now at.0 row.now scopes.old (opened_scope (opening row.now.form)) }
{
    let Some(scope) = opened_scope(row.form) else {
        return;
    };
    let number = scope.0 as usize;
    if number < scopes.len() {
        fill(rows, at, row, &mut scopes[number]);
    }
}

/// The scope that a form opens, where it opens one.
fn opened_scope(form: Form) -> Option<ScopeId>
    ensures { result ≡ opened_scope (opening form) }
{
    match form {
        Form::Program(scope) | Form::Block(scope) | Form::Def { scope, .. } => Some(scope),
        _ => None,
    }
}

fn fill(rows: &[Row], at: NodeId, row: &Row, scope: &mut Scope)
    ensures { scope.new ≡ tree.scope_of rows.now at.0 row.now scope.old.slots }
{
    let kind = kind_of(row.form, form_at(rows, row.within.parent));
    let parts = row.parts.as_slice();
    scope.kind = kind;
    scope.home = home_of(kind, row);
    scope.site = site_of(kind, at, row);
    scope.body = last_or(at, parts);
    scope.parameters = parameters_of(rows, parts);
}

fn form_at(rows: &[Row], at: Option<NodeId>) -> Option<Form>
    ensures { result ≡ tree.form_at rows.now at }
{
    match rows.get(at?.0 as usize) {
        Some(row) => Some(row.form),
        None => None,
    }
}

fn kind_of(form: Form, around: Option<Form>) -> ScopeKind
    ensures { result ≡ tree.kind_of form around }
{
    match form {
        Form::Program(_) => ScopeKind::Main,
        Form::Def { .. } => ScopeKind::Method,
        _ => match around {
            None => ScopeKind::Spawn,
            Some(around) => kind_of_block(around),
        },
    }
}

/// Of a block in a node of this form.
fn kind_of_block(around: Form) -> ScopeKind
    ensures { result ≡ tree.kind_of_block around }
{
    match around {
        Form::Call { .. } => ScopeKind::Block,
        _ => ScopeKind::Spawn,
    }
}

fn home_of(kind: ScopeKind, row: &Row) -> Option<ScopeId>
    ensures { result ≡ tree.home_of kind row.now }
{
    match kind {
        ScopeKind::Main | ScopeKind::Method => None,
        ScopeKind::Block | ScopeKind::Spawn => Some(row.within.scope),
    }
}

fn site_of(kind: ScopeKind, at: NodeId, row: &Row) -> NodeId
    ensures { result ≡ tree.site_of kind at.0 row.now }
{
    match kind {
        ScopeKind::Main | ScopeKind::Method => at,
        ScopeKind::Block | ScopeKind::Spawn => row.within.parent.unwrap_or(at),
    }
}

fn last_or(at: NodeId, parts: &[NodeId]) -> NodeId
    ensures { result ≡ tree.last_or at parts.now }
{
    let mut last = at;
    for part in parts {
        last = *part;
    }
    last
}

fn parameters_of(rows: &[Row], parts: &[NodeId]) -> usize
    ensures { result ≡ tree.parameters_of rows.now parts.now }
{
    let mut count = 0;
    for part in parts {
        match form_at(rows, Some(*part)) {
            Some(Form::Parameter { .. }) => count += 1,
            _ => return count,
        }
    }
    count
}
