// The offences that names alone decide.
use cr_base::NodeId;

/// A rule that a node breaks, in the order of codes.
#[derive(Clone, Copy, Debug, PartialEq, Eq)]
pub enum What {
    /// No class, module or type parameter of this name serves here.
    UnknownClass,
    /// A thing is defined twice.
    Twice,
    /// A class or module is above itself.
    CyclicParent,
    /// A type has another number of arguments than its class has parameters.
    BadArity,
}

/// A node with the rule that it breaks.
#[derive(Clone, Copy, Debug, PartialEq, Eq)]
pub struct Offence {
    pub node: NodeId,
    pub what: What,
}
