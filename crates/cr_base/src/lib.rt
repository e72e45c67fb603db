//! What every floor above speaks of: the identifiers of the things of a program and of its run, and want of memory.
#![tactic(auto)]

mod ids;
mod memory;

pub use ids::{
    AtomId, BuiltinId, CellId, ChannelId, ClassId, ContextId, FiberId, InstanceId, MethodId,
    NameId, NodeId,
};
pub use memory::NoMemory;
