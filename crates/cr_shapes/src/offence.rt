// The offences that the shapes of rows alone decide.
use cr_base::NodeId;

/// A rule that a node breaks, in the order of codes.
#[derive(Clone, Copy, Debug, PartialEq, Eq)]
pub enum What {
    /// An array or hash literal has no written type, and its entries tell none.
    NeedType,
    /// A `yield` stands in a block with which a fiber begins.
    YieldInSpawn,
    /// A written type is deeper than a type may be.
    TypeTooDeep,
}

/// A node with the rule that it breaks.
#[derive(Clone, Copy, Debug, PartialEq, Eq)]
pub struct Offence {
    pub node: NodeId,
    pub what: What,
}
