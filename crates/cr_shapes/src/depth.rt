//! How deep a written type is.
ghost use Rattle.std.specs.Prelude.{◌≡◌};
ghost use Rattle.cr_shapes.specs.Deciding as deciding;
ghost use Rattle.cr_shapes.specs.Written as spec;

use crate::rows::{form_at, parent_at, parts_at};
use cr_base::NodeId;
use cr_core::{Form, Row};

/// How deep a written type may be.
const DEEPEST: u32 = 6;

/// Whether a row is an atom that is no argument of another, and is deeper than a type may be.
pub(crate) fn is_too_deep(rows: &[Row], number: NodeId, row: &Row) -> bool
    ensures { result ≡ deciding.is_too_deep rows.now number row.now }
{
    is_atom(Some(row.form)) && !is_argument(rows, row) && is_deeper(rows, DEEPEST, number)
}

fn is_atom(form: Option<Form>) -> bool
    ensures { result ≡ spec.is_atom form }
{
    matches!(form, Some(Form::Atom(_)))
}

/// Whether an atom stands in an argument of another.
fn is_argument(rows: &[Row], row: &Row) -> bool
    ensures { result ≡ spec.is_argument rows.now row.now }
{
    is_atom(form_at(rows, parent_at(rows, row.within.parent)))
}

/// Whether an atom is deeper than this.
#[cycle(deeper)]
#[tactic(auto, unfolding(crate::specs::Written::is_deeper))]
fn is_deeper(rows: &[Row], depth: u32, atom: NodeId) -> bool
    ensures { result ≡ spec.is_deeper rows.now depth atom }
{
    if depth == 0 {
        return true;
    }
    for argument in parts_at(rows, atom) {
        if has_deeper(rows, depth - 1, *argument) {
            return true;
        }
    }
    false
}

/// Whether some atom of a type is deeper than this.
#[cycle(deeper)]
#[tactic(auto, unfolding(crate::specs::Written::is_deeper))]
fn has_deeper(rows: &[Row], depth: u32, union: NodeId) -> bool
    ensures { result ≡ spec.some_atom rows.now (spec.is_deeper rows.now depth) union }
{
    for atom in parts_at(rows, union) {
        if is_deeper(rows, depth, *atom) {
            return true;
        }
    }
    false
}
