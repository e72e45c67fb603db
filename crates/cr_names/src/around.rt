//! The class around each row, and its type parameters.
ghost use Rattle.std.specs.Prelude.{◌≡◌, ℕ, length, slice_get, IfOk};
ghost use Rattle.cr_core.specs.Standing.{IsArena};
ghost use Rattle.cr_core.specs.Tree as tree;
ghost use Rattle.cr_names.specs.Names as spec;
ghost use Rattle.cr_names.specs.Tables.{told};

use crate::firsts::told;
use crate::kind::{class_by, parameter_by};
use cr_base::{NameId, NoMemory, NodeId};
use cr_core::{Form, Row};
use std::alloc::Global;

/// The number of the innermost class around each row.
pub(crate) fn classes_around(alloc: Global, rows: &[Row]) -> Result<Vec<Option<usize>>, NoMemory>
    requires { IsArena rows.now }
    ensures { IfOk result (λ table. (n : ℕ) → told table.items n ≡ spec.class_around rows.now n) }
{
    let mut table = Vec::new(alloc);
    for row in rows {
        let class = outwards(rows, table.as_slice(), row.within.parent);
        table.push(class)?;
    }
    Ok(table)
}

/// The class that a row's parent is, or else the one around that.
fn outwards(rows: &[Row], table: &[Option<usize>], parent: Option<NodeId>) -> Option<usize>
    ensures { result ≡ spec.outwards rows.now (told table.now) parent }
{
    let parent = parent?;
    let number = parent.0 as usize;
    if is_class_form(form_at(rows, Some(parent))) {
        Some(number)
    } else {
        told(table, number)
    }
}

fn is_class_form(form: Option<Form>) -> bool
    ensures { result ≡ spec.is_class_form form }
{
    match form {
        Some(form) => class_by(form).is_some(),
        None => false,
    }
}

/// The form of a row.
pub(crate) fn form_at(rows: &[Row], at: Option<NodeId>) -> Option<Form>
    ensures { result ≡ tree.form_at rows.now at }
{
    match rows.get(at?.0 as usize) {
        Some(row) => Some(row.form),
        None => None,
    }
}

fn parameter_in(form: Option<Form>) -> Option<NameId>
    ensures { result ≡ spec.parameter_in form }
{
    parameter_by(form?)
}

/// The type parameters of the class with this row.
pub(crate) fn type_parameters(
    alloc: Global,
    rows: &[Row],
    number: usize,
) -> Result<Vec<NameId>, NoMemory>
    ensures { IfOk result (λ names. names.items ≡ spec.type_parameters rows.now number) }
{
    parameters_among(alloc, rows, parts_of(rows, number))
}

fn parts_of(rows: &[Row], number: usize) -> &[NodeId]
    ensures { result.now ≡ spec.parts_of (slice_get rows.now number) }
{
    match rows.get(number) {
        Some(row) => row.parts.as_slice(),
        None => &[],
    }
}

fn parameters_among(alloc: Global, rows: &[Row], parts: &[NodeId]) -> Result<Vec<NameId>, NoMemory>
    ensures { IfOk result (λ names. names.items ≡ spec.parameters_among rows.now parts.now) }
{
    let mut names = Vec::new(alloc);
    for part in parts {
        let Some(name) = parameter_in(form_at(rows, Some(*part))) else {
            return Ok(names);
        };
        names.push(name)?;
    }
    Ok(names)
}

/// How many type parameters the class with this row has.
pub(crate) fn parameter_count(rows: &[Row], number: usize) -> usize
    ensures { result ≡ length (spec.type_parameters rows.now number) }
{
    count_among(rows, parts_of(rows, number))
}

fn count_among(rows: &[Row], parts: &[NodeId]) -> usize
    ensures { result ≡ length (spec.parameters_among rows.now parts.now) }
{
    let mut count = 0;
    for part in parts {
        if parameter_in(form_at(rows, Some(*part))).is_none() {
            return count;
        }
        count += 1;
    }
    count
}

/// Whether the class with this row has a type parameter of this name.
pub(crate) fn has_parameter(rows: &[Row], number: usize, name: NameId) -> bool
    ensures { result ≡ spec.has_name (spec.type_parameters rows.now number) name }
{
    has_among(rows, parts_of(rows, number), name)
}

fn has_among(rows: &[Row], parts: &[NodeId], name: NameId) -> bool
    ensures { result ≡ spec.has_name (spec.parameters_among rows.now parts.now) name }
{
    for part in parts {
        match parameter_in(form_at(rows, Some(*part))) {
            None => return false,
            Some(other) => {
                if other == name {
                    return true;
                }
            }
        }
    }
    false
}
