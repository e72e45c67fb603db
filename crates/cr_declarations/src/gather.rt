//! Declarations, gathered in one pass over the rows.
ghost use Rattle.std.specs.Prelude.{◌≡◌, ◌≤◌, ◌^◌, length, IfOk};
ghost use Rattle.cr_core.specs.Tree as tree;
ghost use Rattle.cr_declarations.specs.Declaring as spec;

use crate::declaration::{Declaration, Declared, Owner};
use cr_base::{NoMemory, NodeId};
use cr_core::{CoreTree, Form, Row};
use std::alloc::Global;

/// All declarations of a core tree, in the order of its rows.
pub fn declarations(alloc: Global, core: &CoreTree) -> Result<Vec<Declaration>, NoMemory>
    ensures { IfOk result (λ list. list.items ≡ spec.declarations core.now.rows) }
{
    gather(alloc, core.rows())
}

fn gather(alloc: Global, rows: &[Row]) -> Result<Vec<Declaration>, NoMemory>
    requires { length rows.now ≤ 2 ^ 32 }
    ensures { IfOk result (λ list. list.items ≡ spec.declarations rows.now) }
{
    let mut list = Vec::new(alloc);
    for (number, row) in rows.iter().enumerate() {
        if let Some(declared) = declared_in(rows, row) {
            list.push(Declaration {
                node: NodeId(number as u32),
                declared,
            })?;
        }
    }
    Ok(list)
}

fn declared_in(rows: &[Row], row: &Row) -> Option<Declared>
    ensures { result ≡ spec.declared_in rows.now row.now }
{
    declared_by(owner_in(form_at(rows, row.within.parent)), row.form)
}

/// What a form declares, where it stands in this.
fn declared_by(owner: Owner, form: Form) -> Option<Declared>
    ensures { result ≡ spec.declared_by owner form }
{
    match form {
        Form::Class { name, superclass } => Some(Declared::Class { name, superclass }),
        Form::Module(name) => Some(Declared::Module(name)),
        Form::Include(included) => Some(Declared::Include { owner, included }),
        Form::Def { name, scope, .. } => Some(Declared::Method { owner, name, scope }),
        Form::Declaration(name) => Some(Declared::Field { owner, name }),
        _ => None,
    }
}

fn owner_in(around: Option<Form>) -> Owner
    ensures { result ≡ spec.owner_in around }
{
    match around {
        None => Owner::TopLevel,
        Some(around) => owner_by(around),
    }
}

fn owner_by(around: Form) -> Owner
    ensures { result ≡ spec.owner_by around }
{
    match around {
        Form::Class { name, .. } => Owner::Of(name),
        Form::Module(name) => Owner::Of(name),
        _ => Owner::TopLevel,
    }
}

fn form_at(rows: &[Row], at: Option<NodeId>) -> Option<Form>
    ensures { result ≡ tree.form_at rows.now at }
{
    match rows.get(at?.0 as usize) {
        Some(row) => Some(row.form),
        None => None,
    }
}
