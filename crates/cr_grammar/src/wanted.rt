use crate::within::Within;

/// The constructs in which the grammar reaches itself, each with what surrounds it.
#[derive(Clone, Copy, Debug, PartialEq, Eq)]
pub enum Wanted {
    /// A type; the flag tells whether type arguments may stand in it.
    Written(bool),
    // Here the flag tells whether a `do` is free; in the arguments of a command it belongs to the command.
    When(Within, bool),
    Unary(Within, bool),
    Or(Within, bool),
    Simple(Within),
    Stmt(Within),
    // Whole lists of statements, and whole programs.
    Stmts(Within),
    Program,
}
