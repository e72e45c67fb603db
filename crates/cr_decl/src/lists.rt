/// What is declared in a list with commas: a name, mostly with its type.
#[derive(Clone, Copy)]
pub enum Declared {
    /// A parameter of a method; the flag tells whether it may be an instance variable.
    Parameter(bool),
    /// What `getter` or `property` names.
    Accessor,
}

/// Whose members stand a line each.
#[derive(Clone, Copy)]
pub enum Members {
    Class,
    Module,
}
