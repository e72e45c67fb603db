//! Lists that are mostly short.

ghost use Rattle.std.specs.Prelude.{◌≡◌, [], ◌∷◌, ◌++◌, OnOk, IfOk};

use sqlite_items::Items;
use std::alloc::{AllocError, Global};

/// A list of one item, with room for no other.
fn one<T: Drop>(alloc: Global, item: T) -> Result<Items<T>, AllocError>
    ensures { IfOk result (λ list. list ≡ item ∷ []) }
{
    let mut items = Vec::with_capacity(alloc, 1)?;
    items.push(item)?;
    Ok(Items::from_vec(items))
}

/// Puts an item behind the others. The first takes room for itself alone, since most lists have but one.
pub fn add<T: Drop>(alloc: Global, list: &mut Items<T>, item: T) -> Result<(), AllocError>
    ensures { OnOk result (list.new ≡ list.old ++ item ∷ []) }
{
    if !list.is_empty() {
        return list.push(item);
    }
    *list = one(alloc, item)?;
    Ok(())
}
