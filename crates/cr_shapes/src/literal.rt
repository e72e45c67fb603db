//! Forms that tell their type at a look, and literals that need one.
ghost use Rattle.std.specs.Prelude.{◌≡◌};
ghost use Rattle.std.specs.List.{list_all};
ghost use Rattle.cr_shapes.specs.Deciding as deciding;
ghost use Rattle.cr_shapes.specs.Obvious as spec;

use cr_base::NodeId;
use cr_core::{Form, Row};

/// Whether a node tells its type at a look.
pub(crate) fn is_obvious(rows: &[Row], node: NodeId) -> bool
    ensures { result ≡ spec.is_obvious rows.now node }
{
    match rows.get(node.0 as usize) {
        Some(row) => is_obvious_form(row.form, row.parts.as_slice().len()),
        None => false,
    }
}

/// Whether a form with so many parts tells its type at a look.
fn is_obvious_form(form: Form, parts: usize) -> bool
    ensures { result ≡ spec.is_obvious_form form parts }
{
    match form {
        Form::Nil | Form::True | Form::False => true,
        Form::Int32(_) | Form::Int64(_) | Form::Text(_) => true,
        Form::New { .. } => true,
        Form::Array { of: true } => parts == 1,
        Form::Hash { of: true } => parts == 2,
        _ => false,
    }
}

/// Whether a row is a literal without a written type whose entries do not tell one.
pub(crate) fn needs_type(rows: &[Row], row: &Row) -> bool
    ensures { result ≡ deciding.needs_type rows.now row.now }
{
    is_untyped(row.form) && !tell_types(rows, row.parts.as_slice())
}

/// Whether a form is an array or hash literal without `of`.
fn is_untyped(form: Form) -> bool
    ensures { result ≡ spec.is_untyped form }
{
    matches!(form, Form::Array { of: false } | Form::Hash { of: false })
}

/// Whether there are entries, and each tells its type at a look.
fn tell_types(rows: &[Row], entries: &[NodeId]) -> bool
    ensures { result ≡ deciding.tell_types rows.now entries.now }
{
    !entries.is_empty() && are_obvious(rows, entries)
}

fn are_obvious(rows: &[Row], entries: &[NodeId]) -> bool
    ensures { result ≡ list_all (spec.is_obvious rows.now) entries.now }
{
    for entry in entries {
        if !is_obvious(rows, *entry) {
            return false;
        }
    }
    true
}
