//! Methods as lookup sees them.
ghost use Rattle.std.specs.Prelude.{◌≡◌, ◌<◌, length, slice_get, Some};

use cr_ancestors::ClassList;
use cr_base::{ClassId, MethodId, NameId};
use std::marker::Model;

/// A place of lookup, by its number: that of its class or module, and for the top level the number behind all of theirs.
#[derive(Clone, Copy, Debug, PartialEq, Eq)]
pub struct Place(pub u32);

/// The classes that a parameter takes.
#[derive(Debug, Drop)]
pub enum Takes {
    /// Each class: no type is written, or a type parameter.
    Any,
    /// These classes.
    Only(ClassList),
}

/// What the parameters of a method take, in order. Contracts see the list.
#[derive(Debug, Drop)]
pub struct Parameters {
    takes: Vec<Takes>,
}

impl Model for Parameters {
    ghost use Rattle.std.specs.Prelude.{List};
    ghost use Rattle.cr_lookup.specs.declared.method.Takes.{Takes};

    ghost Value = { List Takes };

    ghost view = { λ parameters. parameters.takes.items };
}

impl Parameters {
    /// Parameters that take these classes. Takes no memory.
    pub fn of(takes: Vec<Takes>) -> Parameters
        ensures { result ≡ takes.items }
    {
        Parameters { takes }
    }

    /// What they take, in order. Takes no memory.
    pub fn as_slice(&self) -> &[Takes]
        ensures { result.now ≡ self.now }
    {
        self.takes.as_slice()
    }
}

/// A method as lookup sees it.
#[derive(Debug, Drop)]
pub struct Method {
    /// Its number.
    pub id: MethodId,
    /// Its name.
    pub name: NameId,
    /// Whether it is called with a block.
    pub block: bool,
    /// What its parameters take.
    pub parameters: Parameters,
    /// The classes of receivers whose lookup passes it over.
    pub passed_over: ClassList,
}

/// The methods of a place. Contracts see the list.
#[derive(Debug, Drop)]
pub struct MethodList {
    methods: Vec<Method>,
}

impl Model for MethodList {
    ghost use Rattle.std.specs.Prelude.{List};
    ghost use Rattle.cr_lookup.specs.declared.method.Method.{Method};

    ghost Value = { List Method };

    ghost view = { λ list. list.methods.items };
}

impl MethodList {
    /// The methods of a `Vec`. Takes no memory.
    pub fn of(methods: Vec<Method>) -> MethodList
        ensures { result ≡ methods.items }
    {
        MethodList { methods }
    }

    /// The methods, in order. Takes no memory.
    pub fn as_slice(&self) -> &[Method]
        ensures { result.now ≡ self.now }
    {
        self.methods.as_slice()
    }
}

pub(crate) fn method_at(methods: &[Method], n: usize) -> &Method
    requires { n < length methods.now }
    ensures { slice_get methods.now n ≡ Some result.now }
{
    &methods[n]
}

/// What a call asks for beside its arguments.
#[derive(Clone, Copy, Debug)]
pub struct Sought {
    /// The class of the receiver.
    pub receiver: ClassId,
    /// The name of the method.
    pub name: NameId,
    /// Whether the call has a block.
    pub block: bool,
}
