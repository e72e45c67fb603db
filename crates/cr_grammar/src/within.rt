/// What surrounds a place of a program.
#[derive(Clone, Copy, Debug, PartialEq, Eq)]
pub struct Within {
    /// A class or a module.
    pub class: bool,
    /// A `def`.
    pub method: bool,
    /// The `def` of `initialize` in a class or a module.
    pub initialize: bool,
    /// A block of the same method, or of the top level.
    pub block: bool,
    /// A `while` or `until` of the same block or method.
    pub in_loop: bool,
}
