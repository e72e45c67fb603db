//! The rewriting of what nests in a construct.

/// The rewriting of what nests in a construct, as a function, so that each rule is proved by itself.
#[derive(Clone, Copy)]
pub struct Rewriter<F> {
    /// How many more constructs may stand in one another.
    pub fuel: usize,
    pub rewrite: F,
}
