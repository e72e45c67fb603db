//! What a `new` makes.
use cr_base::ClassId;

/// What a `new` makes.
#[derive(Clone, Copy, Debug)]
pub enum Made {
    /// An object of this class.
    Object(ClassId),
    Channel,
    /// `Fiber::ExecutionContext::Concurrent`
    Concurrent,
    /// `Fiber::ExecutionContext::Parallel`
    Parallel,
    /// `Fiber::ExecutionContext::Isolated`
    Isolated,
}
