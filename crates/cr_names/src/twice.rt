//! Decisions about a row: whether it defines a thing twice.
ghost use Rattle.std.specs.Prelude.{◌≡◌, [], Some, slice_get, unwrap_or, IfOk};
ghost use Rattle.std.specs.List.{list_any};
ghost use Rattle.cr_names.specs.Deciding as spec;
ghost use Rattle.cr_core.specs.Tree.{form_of};
ghost use Rattle.cr_names.specs.Offences as offences;
ghost use Rattle.cr_names.specs.Tables.{AreNames};

use crate::around::type_parameters;
use crate::kind::Kind;
use crate::lookup::Lookup;
use cr_base::{NameId, NoMemory};
use cr_core::{Form, Row};
use std::alloc::Global;

/// Whether a row defines a thing twice.
pub(crate) fn is_twice(
    alloc: Global,
    lookup: &Lookup,
    number: usize,
    row: &Row,
) -> Result<bool, NoMemory>
    requires { AreNames lookup.now.core.now lookup.now.names.now }
    ensures { IfOk result (λ yes. yes ≡ spec.is_twice lookup.now.core.now number row.now) }
{
    match row.form {
        Form::Class { name, superclass } => {
            is_twice_class(alloc, lookup, number, row, name, superclass)
        }
        Form::Module(name) => Ok(is_class_by(lookup, number, name)),
        Form::Def { name, .. } => Ok(is_word(text_of(lookup, name))),
        _ => Ok(false),
    }
}

/// The text of a name, or no text.
fn text_of<'a>(lookup: &'a Lookup, name: NameId) -> &'a str
    ensures { result.now ≡ unwrap_or (slice_get lookup.now.core.now.names name.0) [] }
{
    let names = lookup.core.names();
    if (name.0 as usize) < names.len() {
        names.text(name)
    } else {
        ""
    }
}

/// Whether it is a word that no method may be named by.
fn is_word(text: &str) -> bool
    ensures { result ≡ offences.is_word text.now }
{
    text == "puts" || text == "raise"
}

fn is_twice_class(
    alloc: Global,
    lookup: &Lookup,
    number: usize,
    row: &Row,
    name: NameId,
    superclass: Option<NameId>,
) -> Result<bool, NoMemory>
    requires { AreNames lookup.now.core.now lookup.now.names.now }
    ensures { IfOk result (λ yes. yes ≡ spec.is_twice_class lookup.now.core.now number row.now name superclass) }
{
    if is_taken_in_source(alloc, lookup, number, row, name)?
        || is_other_kind(lookup, number, name)
        || is_other_superclass(lookup, name, superclass)
    {
        return Ok(true);
    }
    has_other_parameters(
        alloc,
        lookup.core.rows(),
        number,
        lookup.first(Kind::Class, name),
    )
}

/// Whether the class of the row, or a type parameter of it, has the name of a class that was there before.
fn is_taken_in_source(
    alloc: Global,
    lookup: &Lookup,
    number: usize,
    row: &Row,
    name: NameId,
) -> Result<bool, NoMemory>
    requires { AreNames lookup.now.core.now lookup.now.names.now }
    ensures { IfOk result (λ yes. yes ≡ spec.is_taken_in_source lookup.now.core.now number row.now name) }
{
    if row.place.prelude {
        return Ok(false);
    }
    if lookup.is_built_in(name) {
        return Ok(true);
    }
    has_class_parameter(alloc, lookup, number)
}

fn has_class_parameter(alloc: Global, lookup: &Lookup, number: usize) -> Result<bool, NoMemory>
    requires { AreNames lookup.now.core.now lookup.now.names.now }
    ensures { IfOk result (λ yes. yes ≡ offences.has_class_parameter lookup.now.core.now number) }
{
    let parameters = type_parameters(alloc, lookup.core.rows(), number)?;
    Ok(has_class(lookup, number, parameters.as_slice()))
}

fn has_class(lookup: &Lookup, number: usize, names: &[NameId]) -> bool
    requires { AreNames lookup.now.core.now lookup.now.names.now }
    ensures { result ≡ list_any (offences.is_class_by lookup.now.core.now number) names.now }
{
    for name in names {
        if is_class_by(lookup, number, *name) {
            return true;
        }
    }
    false
}

/// Whether a class of this name is built in, or is declared first in the row of this number or before it.
fn is_class_by(lookup: &Lookup, number: usize, name: NameId) -> bool
    requires { AreNames lookup.now.core.now lookup.now.names.now }
    ensures { result ≡ offences.is_class_by lookup.now.core.now number name }
{
    lookup.is_built_in(name) || is_up_to(number, lookup.first(Kind::Class, name))
}

fn is_up_to(number: usize, first: Option<usize>) -> bool
    ensures { result ≡ offences.is_up_to number first }
{
    match first {
        None => false,
        Some(other) => other <= number,
    }
}

/// Whether the name is that of a module or a type parameter that was there before.
fn is_other_kind(lookup: &Lookup, number: usize, name: NameId) -> bool
    requires { AreNames lookup.now.core.now lookup.now.names.now }
    ensures { result ≡ spec.is_other_kind lookup.now.core.now number name }
{
    is_up_to(number, lookup.first(Kind::Module, name))
        || is_up_to(number, lookup.first(Kind::Parameter, name))
}

/// Whether a class has another superclass than was named for it first.
fn is_other_superclass(lookup: &Lookup, name: NameId, superclass: Option<NameId>) -> bool
    requires { AreNames lookup.now.core.now lookup.now.names.now }
    ensures { result ≡ spec.other_superclass_than lookup.now.core.now name superclass }
{
    match superclass {
        None => false,
        Some(above) => is_other_than(lookup, above, lookup.first(Kind::Heir, name)),
    }
}

fn is_other_than(lookup: &Lookup, above: NameId, first: Option<usize>) -> bool
    ensures { result ≡ spec.other_superclass_by lookup.now.core.now above first }
{
    match first {
        None => false,
        Some(number) => !is_named(above, superclass_at(lookup.core.rows(), number)),
    }
}

fn is_named(name: NameId, other: Option<NameId>) -> bool
    ensures { result ≡ spec.is_named name other }
{
    match other {
        None => false,
        Some(other) => other == name,
    }
}

/// The superclass that the class with this row names.
fn superclass_at(rows: &[Row], number: usize) -> Option<NameId>
    ensures { result ≡ offences.superclass_in (form_of (slice_get rows.now number)) }
{
    match rows.get(number) {
        Some(row) => superclass_by(row.form),
        None => None,
    }
}

fn superclass_by(form: Form) -> Option<NameId>
    ensures { result ≡ offences.superclass_in (Some form) }
{
    match form {
        Form::Class { superclass, .. } => superclass,
        _ => None,
    }
}

/// Whether a class has other type parameters than in its first row.
fn has_other_parameters(
    alloc: Global,
    rows: &[Row],
    number: usize,
    first: Option<usize>,
) -> Result<bool, NoMemory>
    ensures { IfOk result (λ yes. yes ≡ spec.other_parameters_in rows.now number first) }
{
    let Some(first) = first else {
        return Ok(false);
    };
    let before = type_parameters(alloc, rows, first)?;
    let now = type_parameters(alloc, rows, number)?;
    Ok(!are_same(before.as_slice(), now.as_slice()))
}

fn are_same(names: &[NameId], others: &[NameId]) -> bool
    ensures { result ≡ spec.same_names names.now others.now }
{
    names == others
}
