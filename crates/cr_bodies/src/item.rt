use cr_grammar::{Wanted, Within};

/// What stands between commas.
#[derive(Clone, Copy)]
pub enum Item {
    /// A part.
    Part(Wanted),
    /// A parameter of a block.
    Parameter,
    /// `k => v` of a hash literal; the flag tells whether a `do` is free.
    Entry(Within, bool),
}

/// A list of statements, by what reads one.
#[derive(Clone, Copy)]
pub enum Lines {
    /// Parts of a node.
    Body(Within),
    /// A list by itself.
    Alone(Within),
}

/// A clause of `if`, `case` or `select`.
#[derive(Clone, Copy)]
pub enum Clause {
    /// `elsif`
    Elsif(Within),
    /// `in`
    In(Within),
    /// `when`; the flag tells whether a `do` is free.
    When(Within, bool),
}
