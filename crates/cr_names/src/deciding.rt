//! Decisions about a row: whether it commits an offence that names alone decide, but for what stands above.
ghost use Rattle.std.specs.Prelude.{◌≡◌};
ghost use Rattle.cr_core.specs.Tree as tree;
ghost use Rattle.cr_names.specs.Deciding as spec;
ghost use Rattle.cr_names.specs.Names as names;
ghost use Rattle.cr_names.specs.Offences as offences;
ghost use Rattle.cr_names.specs.Tables.{AreNames};

use crate::around::form_at;
use crate::built_in::is_made;
use crate::lookup::Lookup;
use cr_base::{NameId, NodeId};
use cr_core::{Form, Row};

// ---- unknown class

/// Whether a row names a class or module where none of this name serves.
pub(crate) fn is_unknown(lookup: &Lookup, number: usize, row: &Row) -> bool
    requires { AreNames lookup.now.core.now lookup.now.names.now }
    ensures { result ≡ spec.is_unknown lookup.now.core.now number row.now }
{
    match row.form {
        Form::Atom(name) => is_unknown_atom(lookup, number, row, name),
        Form::Class {
            superclass: Some(above),
            ..
        } => !is_superclass(lookup, above),
        Form::Include(name) => !lookup.is_module(name),
        Form::New { question, .. } => question
            || is_wrong_maker(lookup, number, maker(lookup, row)),
        _ => false,
    }
}

fn is_unknown_atom(lookup: &Lookup, number: usize, row: &Row, name: NameId) -> bool
    requires { AreNames lookup.now.core.now lookup.now.names.now }
    ensures { result ≡ spec.is_unknown_atom lookup.now.core.now number row.now name }
{
    if lookup.is_type_parameter(number, name) {
        in_test(lookup.core.rows(), row)
    } else {
        !lookup.is_known(name)
    }
}

/// Whether an atom stands in `is_a?` or `in`.
fn in_test(rows: &[Row], row: &Row) -> bool
    ensures { result ≡ offences.is_test (tree.form_at rows.now row.now.within.parent) }
{
    matches!(form_at(rows, row.within.parent), Some(Form::IsA))
}

/// Whether a class may name it behind `<`.
pub(crate) fn is_superclass(lookup: &Lookup, name: NameId) -> bool
    requires { AreNames lookup.now.core.now lookup.now.names.now }
    ensures { result ≡ names.is_superclass lookup.now.core.now name }
{
    lookup.is_own_class(name) && lookup.arity(name) == 0
}

/// The name behind which a `new` stands.
fn maker(lookup: &Lookup, row: &Row) -> Option<NameId>
    ensures { result ≡ offences.maker lookup.now.core.now row.now }
{
    atom_in(form_at(lookup.core.rows(), first_part(row.parts.as_slice())))
}

fn first_part(parts: &[NodeId]) -> Option<NodeId>
    ensures { result ≡ offences.first_part parts.now }
{
    match parts {
        [] => None,
        [part, ..] => Some(*part),
    }
}

fn atom_in(form: Option<Form>) -> Option<NameId>
    ensures { result ≡ offences.atom_in form }
{
    match form {
        Some(Form::Atom(name)) => Some(name),
        _ => None,
    }
}

fn is_wrong_maker(lookup: &Lookup, number: usize, maker: Option<NameId>) -> bool
    requires { AreNames lookup.now.core.now lookup.now.names.now }
    ensures { result ≡ spec.is_wrong_maker lookup.now.core.now number maker }
{
    match maker {
        None => false,
        Some(name) => {
            lookup.is_module(name)
                || lookup.is_type_parameter(number, name)
                || is_unmade(lookup.built_in(name))
        }
    }
}

fn is_unmade(built_in: Option<usize>) -> bool
    ensures { result ≡ spec.is_unmade built_in }
{
    match built_in {
        None => false,
        Some(place) => !is_made(place),
    }
}

// ---- wrong number of type arguments

/// Whether a row is an atom with a wrong number of arguments.
pub(crate) fn is_bad_arity(lookup: &Lookup, number: usize, row: &Row) -> bool
    requires { AreNames lookup.now.core.now lookup.now.names.now }
    ensures { result ≡ spec.is_bad_arity lookup.now.core.now number row.now }
{
    match row.form {
        Form::Atom(name) => {
            !in_test(lookup.core.rows(), row)
                && row.parts.as_slice().len() != wanted(lookup, number, name)
        }
        _ => false,
    }
}

fn wanted(lookup: &Lookup, number: usize, name: NameId) -> usize
    requires { AreNames lookup.now.core.now lookup.now.names.now }
    ensures { result ≡ offences.wanted lookup.now.core.now number name }
{
    if lookup.is_type_parameter(number, name) {
        0
    } else {
        lookup.arity(name)
    }
}
