//! The whole tree of the prelude.

ghost use Rattle.std.specs.Prelude.{◌≡◌, IfOk};
ghost use Rattle.cr_prelude.specs.Trees.{prelude_tree};

use crate::collections::{array, hash};
use crate::integers::int32;
use crate::lines::{and, one};
use crate::objects::{nil_class, object};
use cr_base::NoMemory;
use cr_grammar::Tree;
use std::alloc::Global;

/// The tree that the text of the prelude spells.
///
/// # Errors
///
/// `NoMemory` where memory runs out.
#[tactic(auto, unfolding(crate::specs::Trees::prelude_tree))]
pub fn tree(alloc: Global) -> Result<Tree, NoMemory>
    ensures { IfOk result (λ made. made ≡ prelude_tree) }
{
    let list = one(alloc, object(alloc)?)?;
    let list = and(list, nil_class(alloc)?)?;
    let list = and(list, int32(alloc)?)?;
    let list = and(list, array(alloc)?)?;
    let list = and(list, hash(alloc)?)?;
    Ok(Tree::Statements { list })
}
