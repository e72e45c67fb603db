//! Variables, and how the evaluation of a node comes out.

use cr_base::NameId;
use cr_core::ScopeId;

/// A local by its scope and its slot there, or an instance variable by its name with the `@`.
#[derive(Clone, Copy, Debug, PartialEq, Eq)]
pub enum Variable {
    Local { scope: ScopeId, slot: u32 },
    Field(NameId),
}

/// How an evaluation that ended came out: truthy or not.
#[derive(Clone, Copy, Debug, PartialEq, Eq)]
pub(crate) enum Outcome {
    Yes,
    No,
}

/// Where the outcome of a condition leads: to a part, or out of the whole with one of these outcomes.
#[derive(Clone, Copy, Debug, PartialEq, Eq)]
pub(crate) enum Arm {
    Part(u32),
    Give { truthy: bool, falsey: bool },
}
