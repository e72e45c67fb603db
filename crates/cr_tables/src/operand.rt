//! What the arguments of a built-in method may be.
use cr_prelude::BuiltinClass;

/// What an argument of a built-in method may be.
#[derive(Clone, Copy, Debug)]
pub enum Operand {
    Any,
    /// One of this class.
    Just(BuiltinClass),
    /// One of any class but this.
    But(BuiltinClass),
    /// A key of a hash.
    Key,
}

/// What the arguments of a built-in method may be.
#[derive(Clone, Copy, Debug)]
pub enum Operands {
    Nothing,
    One(Operand),
    Two(Operand, Operand),
}
