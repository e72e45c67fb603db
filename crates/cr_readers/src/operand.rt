use cr_grammar::{Binary, Tree, Word};
use sqlite_items::{Boxed, Items};

/// A postfix as it is read, apart by what it may become: a name or a link alone may be assigned, or take arguments without
/// parentheses, and `c.send(v)` may be an operation of `select`.
#[derive(Drop)]
pub enum Operand {
    /// A name alone.
    Name(Word),
    /// `.x` behind a receiver.
    Field(Boxed<Tree>, Word),
    /// `[a]` behind a receiver, and its place.
    Element(u32, Boxed<Tree>, Items<Tree>),
    /// `@x`
    Variable(Word),
    /// `yield` without parentheses, by its place.
    Yielding(u32),
    /// `super` without parentheses, by its place.
    Above(u32),
    /// `.f(v)` without a block, with the name, the receiver and the argument.
    Passing(Word, Boxed<Tree>, Boxed<Tree>),
    Whole(Boxed<Tree>),
}

/// An operator between operands, its place, and whether it is a spaced `-`.
#[derive(Clone, Copy, Debug, PartialEq, Eq)]
pub struct Operator {
    pub at: u32,
    pub operator: Binary,
    pub spaced_minus: bool,
}
