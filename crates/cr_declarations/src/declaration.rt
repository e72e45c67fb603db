// Declarations as the floors above see them. What else there is of one, as the types of parameters, stands in the tree at its node.
use cr_base::{NameId, NodeId};
use cr_core::ScopeId;

/// What a declaration stands in.
#[derive(Clone, Copy, Debug)]
pub enum Owner {
    TopLevel,
    /// The class or module of this name.
    Of(NameId),
}

/// What is declared.
#[derive(Clone, Copy, Debug)]
pub enum Declared {
    /// A class, with the superclass that this declaration of it names.
    Class {
        name: NameId,
        superclass: Option<NameId>,
    },
    Module(NameId),
    /// That the owner includes a module.
    Include {
        owner: Owner,
        included: NameId,
    },
    /// A method, with its scope, which has the number of its parameters.
    Method {
        owner: Owner,
        name: NameId,
        scope: ScopeId,
    },
    /// An instance variable, by its name with the `@`.
    Field {
        owner: Owner,
        name: NameId,
    },
}

/// A declaration.
#[derive(Clone, Copy, Debug)]
pub struct Declaration {
    /// Its node.
    pub node: NodeId,
    pub declared: Declared,
}
