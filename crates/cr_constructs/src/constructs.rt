//! The rewriting of constructs other than terms alone.

use cr_making::Rewriter;

/// The rewriting of conditions, loops, jumps, `case`, `select`, assignments and declarations, over that of what nests in them.
#[derive(Clone, Copy)]
pub struct Constructs<F> {
    pub rewriter: Rewriter<F>,
}
