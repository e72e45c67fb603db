use cr_grammar::{Tree, Unary};
use cr_syntax::{TokenLook, TokenText};
use sqlite_items::{Boxed, Items};

/// A part of what is written of a construct. Parts stand one after the other, with nothing between them.
#[derive(Clone, Copy)]
pub(crate) enum Part<'a> {
    Nothing,
    Space,
    /// A keyword or an operator.
    Word(TokenLook),
    /// A name of a local, a method or a field.
    Name(&'a TokenText),
    /// A name of a class or module.
    Constant(&'a TokenText),
    /// An instance variable.
    Variable(&'a TokenText),
    /// `new`
    New,
    /// `Fiber`
    Fiber,
    /// The name of a parameter: of an instance variable where it is one.
    Parameter(bool, &'a TokenText),
    /// The name in a `def`.
    MethodName(&'a TokenText),
    Int32(i32),
    Int64(i64),
    Text(&'a TokenText),
    /// The parts of a text and its insertions.
    Insertions(&'a Items<TokenText>, &'a Items<Tree>),
    /// A construct as it is.
    Bare(&'a Tree),
    /// An operand or a receiver.
    Operand(&'a Tree),
    /// An argument, an element, a key or a value.
    Argument(&'a Tree),
    /// An operator before its operand.
    Prefixed(Unary, &'a Tree),
    /// A receiver and its `.`, if there is one.
    Receiver(&'a Option<Boxed<Tree>>),
    /// A block behind a call, if there is one.
    Block(&'a Option<Boxed<Tree>>),
    /// `: T`, if there is one.
    Restriction(&'a Option<Boxed<Tree>>),
    /// `of T`, if there is one.
    OfType(&'a Option<Boxed<Tree>>),
    /// What `return` or `next` gives, if anything.
    Gift(&'a Option<Boxed<Tree>>),
    /// `x = ` in front of what is received, if it is kept.
    ReceivedAs(&'a Option<Boxed<Tree>>),
    /// `< B`, if there is one.
    Superclass(&'a Option<TokenText>),
    /// A `?`, or nothing.
    Question(bool),
    /// Arguments in parentheses, or nothing.
    Arguments(&'a Items<Tree>),
    /// Arguments or elements, with commas between them.
    Listed(&'a Items<Tree>),
    /// Parts that are never in parentheses of their own, with commas between them.
    ListedBare(&'a Items<Tree>),
    /// The same in parentheses, or nothing.
    Parenthesized(&'a Items<Tree>),
    /// The names of a block between `|`, or nothing.
    BlockParameters(&'a Items<Tree>),
    /// The atoms of a type, with `|` between them.
    Atoms(&'a Items<Tree>),
    /// The names of a path, with `::` between them.
    Path(&'a Items<TokenText>),
    /// The type parameters of a class in parentheses, or nothing.
    Constants(&'a Items<TokenText>),
    /// The items of a program.
    Program(&'a Items<Tree>),
    /// Statements one level below, each on a line of its own.
    Lines(&'a Items<Tree>),
    /// Clauses or branches, each on a line of its own.
    Clauses(&'a Items<Tree>),
    /// `else` with its statements, if there is one.
    Else(&'a Option<Items<Tree>>),
    /// The line that ends the construct.
    End,
}
