//! The places where a construct may stand.

use cr_core::Form;

/// Where a construct stands, so that one loop serves lists in every place.
#[derive(Clone, Copy)]
pub enum View {
    Term,
    Member,
    /// A written type, by its atoms.
    Atoms,
    /// The class before `new`.
    Class,
    Parameter,
    /// A parameter, for the instance variable that it declares.
    Fields,
    /// A parameter, for what it assigns before the body.
    Kept,
    /// A written type of the construct at this place.
    Union(u32),
    /// The block of the construct at this place.
    Block(u32),
    /// An `elsif`.
    Branch,
    /// An `in`, where this form reads the value.
    Arm(Form),
    /// A `when`.
    Clause,
    /// An entry of a hash.
    Pair,
    /// The types of the entries of the hash at this place.
    PairTypes(u32),
    /// An accessor of a `property`, or of a `getter`.
    Accessor(bool),
}
