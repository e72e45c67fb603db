//! Where a `super`, or the making of an object, goes.
use cr_base::MethodId;

/// Where a `super`, or the making of an object, goes.
#[derive(Clone, Copy, Debug)]
pub enum Onwards {
    /// There is no method of that name further on.
    Nowhere,
    To(MethodId),
    /// There are some, and none of them matches.
    NoneMatches,
}
