// What holds of the names and locals of all core trees.
ghost use Rattle.std.specs.Prelude.{◌≡◌, Some};
ghost use Rattle.cr_base.specs.declared.ids.NameId.{NameId};
ghost use Rattle.cr_grammar.specs.declared.tree.Tree.{Tree};
ghost use Rattle.cr_core.specs.declared.form.Local.{Local};
ghost use Rattle.cr_core.specs.Tree.{Contents, IsCore};
ghost use Rattle.cr_making.specs.Naming.{State, resolved};
ghost use Rattle.cr_lowering.specs.Laws.{LocalsInRange, NamesOnce, NamedAreTold, IsDeclared};
ghost use Rattle.cr_lowering.specs.Lowering.{IsLowering};

use cr_core::CoreTree;

/// Each local that a row names is one of a scope that is open there, and has a slot of it.
pub fn locals_are_in_range()
    ensures { (t : Contents) → IsCore t → LocalsInRange t }
{}

/// Two equal names of a core tree have one number.
pub fn equal_names_have_one_number(tree: &CoreTree)
    ensures { NamesOnce tree.now.names }
{
    let _ = tree.names().len();
}

/// A name that is found as a local has its slot, among the locals so far, in a scope that is open there.
pub fn found_locals_are_declared()
    ensures { (name : NameId) (s : State) (l : Local) → resolved name s ≡ Some l → IsDeclared name s l }
{}

/// Each local of a program's core tree that bears a name is assigned by some row, or is a parameter of its scope.
pub fn named_locals_are_told()
    ensures { (prelude tree : Tree) (t : Contents) → IsLowering prelude tree t → NamedAreTold t }
{}
