//! Contexts: where fibers run.

use cr_base::FiberId;

/// What a context is.
#[derive(Clone, Copy, Debug, PartialEq, Eq)]
pub enum ContextKind {
    Concurrent,
    Parallel,
    /// With its fiber.
    Isolated(FiberId),
}

/// A context. At most `size` of its fibers are current at once.
#[derive(Clone, Copy, Debug, PartialEq, Eq)]
pub struct Context {
    pub kind: ContextKind,
    pub size: u32,
}
