//! What the rows of a core tree declare: classes, modules, inclusions, methods and instance variables, with what each stands in; and
//! which methods take a block.
#![tactic(auto)]

mod blocks;
mod declaration;
mod gather;

pub use blocks::scopes_with_yield;
pub use declaration::{Declaration, Declared, Owner};
pub use gather::declarations;
