//! What the declarations of a class or module put above it.
ghost use Rattle.std.specs.Prelude.{◌≡◌, IfOk};
ghost use Rattle.cr_ancestors.specs.Above.{ups};

use crate::class_list::ClassList;
use cr_base::NoMemory;
use std::alloc::Global;

/// What the declarations of a class or module put directly above it.
#[derive(Debug, Drop)]
pub struct Parents {
    /// The modules that it includes, in the order of inclusion.
    pub modules: ClassList,
    /// The superclass, once for each declaration that names it. A module has none, nor has the class at the root.
    pub superclasses: ClassList,
}

/// What stands directly above a class or module, in the order of lookup.
pub(crate) fn ups(alloc: Global, parents: &Parents) -> Result<ClassList, NoMemory>
    ensures { IfOk result (λ list. list ≡ ups parents.now) }
{
    let modules = parents.modules.as_slice();
    let superclasses = parents.superclasses.as_slice();
    let mut list = Vec::with_capacity(alloc, modules.len() + superclasses.len())?;
    list.extend_from_slice(modules)?;
    list.as_mut_slice().reverse();
    list.extend_from_slice(superclasses)?;
    Ok(ClassList::of(list))
}
