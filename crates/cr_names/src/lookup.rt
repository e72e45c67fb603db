//! Questions to the names of a core tree.
ghost use Rattle.std.specs.Prelude.{◌≡◌, ◌<◌, ◌+◌, length, slice_get, unwrap_or, IfOk};
ghost use Rattle.std.specs.Option.{option_map};
ghost use Rattle.cr_names.specs.Names as spec;
ghost use Rattle.cr_names.specs.Tables.{AreNames};

use crate::around::{has_parameter, parameter_count};
use crate::built_in::{built_in_count, parameters_of_built_in};
use crate::kind::Kind;
use crate::names::Names;
use cr_base::{ClassId, NameId};
use cr_core::{CoreTree, Row};

/// A core tree with its names.
#[derive(Clone, Copy)]
pub struct Lookup<'a> {
    pub core: &'a CoreTree,
    pub names: &'a Names,
}

impl Lookup<'_> {
    /// The number of the built-in class of this name.
    pub(crate) fn built_in(&self, name: NameId) -> Option<usize>
        requires { AreNames self.now.core.now self.now.names.now }
        ensures { result ≡ spec.built_in self.now.core.now name }
    {
        self.names.built_in(name)
    }

    /// The number of the first row that tells something of this kind of the name.
    pub(crate) fn first(&self, kind: Kind, name: NameId) -> Option<usize>
        requires { AreNames self.now.core.now self.now.names.now }
        ensures { result ≡ spec.first kind self.now.core.now name }
    {
        self.names.first(kind, name)
    }

    /// The number of the row of the innermost class around a row.
    pub(crate) fn class_around(&self, row: usize) -> Option<usize>
        requires { AreNames self.now.core.now self.now.names.now }
        ensures { result ≡ spec.class_around self.now.core.now.rows row }
    {
        self.names.around(row)
    }

    fn own_place(&self, name: NameId) -> Option<usize>
        requires { AreNames self.now.core.now self.now.names.now }
        ensures { result ≡ spec.own_place self.now.core.now name }
    {
        self.names.place(name)
    }

    /// Whether it is the name of a built-in class.
    pub fn is_built_in(&self, name: NameId) -> bool
        requires { AreNames self.now.core.now self.now.names.now }
        ensures { result ≡ spec.is_built_in self.now.core.now name }
    {
        self.built_in(name).is_some()
    }

    /// Whether it is the name of a class that is declared, and of no built-in class.
    pub fn is_own_class(&self, name: NameId) -> bool
        requires { AreNames self.now.core.now self.now.names.now }
        ensures { result ≡ spec.is_own_class self.now.core.now name }
    {
        !self.is_built_in(name) && self.first(Kind::Class, name).is_some()
    }

    /// Whether it is the name of a module, and of no built-in class.
    pub fn is_module(&self, name: NameId) -> bool
        requires { AreNames self.now.core.now self.now.names.now }
        ensures { result ≡ spec.is_module self.now.core.now name }
    {
        !self.is_built_in(name) && self.first(Kind::Module, name).is_some()
    }

    /// Whether it is the name of a class or module.
    pub fn is_known(&self, name: NameId) -> bool
        requires { AreNames self.now.core.now self.now.names.now }
        ensures { result ≡ spec.is_known self.now.core.now name }
    {
        self.is_built_in(name) || self.first(Kind::Either, name).is_some()
    }

    /// How many type parameters the class of this name has. A module has none.
    pub fn arity(&self, name: NameId) -> usize
        requires { AreNames self.now.core.now self.now.names.now }
        ensures { result ≡ spec.arity self.now.core.now name }
    {
        match self.built_in(name) {
            Some(place) => parameters_of_built_in(place),
            None => parameters_of_own(self.core.rows(), self.first(Kind::Class, name)),
        }
    }

    /// Whether it is the name of a type parameter of the class around a row, by the row's number.
    pub fn is_type_parameter(&self, row: usize, name: NameId) -> bool
        requires { AreNames self.now.core.now self.now.names.now }
        ensures { result ≡ spec.is_type_parameter self.now.core.now row name }
    {
        match self.class_around(row) {
            Some(class) => has_parameter(self.core.rows(), class, name),
            None => false,
        }
    }

    /// The number of the class or module of this name, where there is one.
    pub fn class_of_name(&self, name: NameId) -> Option<ClassId>
        requires { AreNames self.now.core.now self.now.names.now }
        ensures { option_map (λ class. class.0) result ≡ spec.class_of_name self.now.core.now name }
    {
        match self.built_in(name) {
            Some(place) => Some(ClassId(place as u32)),
            None => match self.own_place(name) {
                Some(place) => Some(ClassId((built_in_count() + place) as u32)),
                None => None,
            },
        }
    }

    /// How many classes and modules there are, built-in ones among them.
    pub fn class_count(&self) -> usize
        requires { AreNames self.now.core.now self.now.names.now }
        ensures { result ≡ spec.class_count self.now.core.now }
    {
        built_in_count() + self.names.own().len()
    }
}

fn parameters_of_own(rows: &[Row], first: Option<usize>) -> usize
    ensures { result ≡ spec.parameters_of_own rows.now first }
{
    match first {
        Some(number) => parameter_count(rows, number),
        None => 0,
    }
}
