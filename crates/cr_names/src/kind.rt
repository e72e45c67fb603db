//! What a row can tell of a name.
ghost use Rattle.std.specs.Prelude.{◌≡◌};
ghost use Rattle.cr_names.specs.Names as spec;

use cr_base::NameId;
use cr_core::{Form, Row};

/// What a row can tell of a name.
#[derive(Clone, Copy, Debug)]
pub enum Kind {
    /// It declares a class of this name.
    Class,
    /// It declares a module of this name.
    Module,
    /// It declares a class or a module of this name.
    Either,
    /// It declares a class of this name, and names its superclass.
    Heir,
    /// It declares a type parameter of this name in the source.
    Parameter,
}

/// The name of which a row tells something of this kind.
pub(crate) fn named_by(kind: Kind, row: &Row) -> Option<NameId>
    ensures { result ≡ spec.named_by kind row.now }
{
    match kind {
        Kind::Class => class_by(row.form),
        Kind::Module => module_by(row.form),
        Kind::Either => declared_by(row.form),
        Kind::Heir => heir_by(row.form),
        Kind::Parameter => {
            if row.place.prelude {
                None
            } else {
                parameter_by(row.form)
            }
        }
    }
}

/// The name of the class or module that is declared.
pub(crate) fn declared_by(form: Form) -> Option<NameId>
    ensures { result ≡ spec.declared_by form }
{
    match form {
        Form::Class { name, .. } | Form::Module(name) => Some(name),
        _ => None,
    }
}

/// The name of the class that is declared.
pub(crate) fn class_by(form: Form) -> Option<NameId>
    ensures { result ≡ spec.class_by form }
{
    match form {
        Form::Class { name, .. } => Some(name),
        _ => None,
    }
}

fn module_by(form: Form) -> Option<NameId>
    ensures { result ≡ spec.module_by form }
{
    match form {
        Form::Module(name) => Some(name),
        _ => None,
    }
}

/// The name of the class that is declared with a superclass.
fn heir_by(form: Form) -> Option<NameId>
    ensures { result ≡ spec.heir_by form }
{
    match form {
        Form::Class {
            name,
            superclass: Some(_),
        } => Some(name),
        _ => None,
    }
}

/// The name of the type parameter that is declared.
pub(crate) fn parameter_by(form: Form) -> Option<NameId>
    ensures { result ≡ spec.parameter_by form }
{
    match form {
        Form::TypeParameter(name) => Some(name),
        _ => None,
    }
}
