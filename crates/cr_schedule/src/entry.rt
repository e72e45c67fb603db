use cr_base::FiberId;

/// The greatest number of a fiber.
pub const LAST_FIBER: u32 = 65_535;

/// The greatest number of a clause of a `select`.
pub const LAST_CLAUSE: u32 = 199_999;

/// The most reductions that one entry has.
pub const MOST_STEPS: u32 = 50_000_000;

/// One event of a run.
#[derive(Clone, Copy, Debug, PartialEq, Eq)]
pub enum Entry {
    /// That many reductions of a fiber, one after another. What was chosen belongs to the last one.
    Steps {
        /// The fiber that was reduced.
        fiber: FiberId,
        /// How many reductions.
        count: u32,
        /// The clause that a `select` took, from 0. Its `else` has the number after the last one.
        clause: Option<u32>,
        /// The fiber that was met.
        partner: Option<FiberId>,
        /// The clause that the partner's `select` took.
        partner_clause: Option<u32>,
    },
    /// A fiber began to wait.
    Wait(FiberId),
    /// A fiber became current.
    Resume(FiberId),
}
