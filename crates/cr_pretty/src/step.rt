use cr_grammar::Tree;
use cr_syntax::{TokenLook, TokenText};
use sqlite_items::Items;

/// What is put at once: a token, blanks, a construct, or constructs of one manner.
#[derive(Clone, Copy)]
pub(crate) enum Step<'a> {
    Nothing,
    Space,
    /// The end of a line, and the blanks of the level.
    Line,
    /// A keyword or an operator.
    Word(TokenLook),
    /// A name of a local, a method or a field.
    Name(&'a TokenText),
    /// A name of a class or module.
    Constant(&'a TokenText),
    /// An instance variable.
    Variable(&'a TokenText),
    /// The name in a `def`.
    MethodName(&'a TokenText),
    /// `new`
    New,
    /// `Fiber`
    Fiber,
    Int32(i32),
    Int64(i64),
    Text(&'a TokenText),
    /// The parts of a text and its insertions.
    Insertions(&'a Items<TokenText>, &'a Items<Tree>),
    /// A construct as it is.
    Bare(&'a Tree),
    /// An operand or a receiver.
    Operand(&'a Tree),
    /// An argument, an element, a key or a value.
    Argument(&'a Tree),
    /// What `return` or `next` gives.
    Given(&'a Tree),
    /// The operand behind a `-`.
    Negated(&'a Tree),
    /// Arguments or elements, with commas between them.
    Arguments(&'a Items<Tree>),
    /// Constructs as they are, with commas between them.
    Listed(&'a Items<Tree>),
    /// The atoms of a type, with `|` between them.
    Atoms(&'a Items<Tree>),
    /// The names of a path, with `::` between them.
    Path(&'a Items<TokenText>),
    /// Names of classes, with commas between them.
    Constants(&'a Items<TokenText>),
    /// The items of a program.
    Program(&'a Items<Tree>),
    /// Statements or members one level below, each on a line of its own.
    Lines(&'a Items<Tree>),
    /// Clauses or branches, each on a line of its own.
    Clauses(&'a Items<Tree>),
}
