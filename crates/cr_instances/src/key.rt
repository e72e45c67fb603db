// A key is compared and hashed whole, so two keys are equal exactly where all their parts are.
ghost use Rattle.std.specs.Prelude.{◌≡◌};
ghost use Rattle.std.specs.Hash as fed;
ghost use Rattle.std.specs.Hash.{items_Alike};
ghost use Rattle.std.specs.Cmp.{partial_equiv_from_equiv};
ghost use Rattle.std.specs.Cmp.Lexicographic.{pointwise, lists_equiv};
ghost use Rattle.cr_instances.specs.Same.{same_atom, same_atom_equiv, same_atom_fed};

use cr_base::{AtomId, InstanceId, MethodId, NodeId};
use std::hash::{Hash, Hasher};
use std::marker::Model;

/// The atoms of the arguments of a call, in order. Contracts see the list of them.
#[derive(Debug, Drop)]
pub struct AtomList {
    atoms: Vec<AtomId>,
}

impl Model for AtomList {
    ghost use Rattle.std.specs.Prelude.{List};
    ghost use Rattle.cr_base.specs.declared.ids.AtomId.{AtomId};

    ghost Value = { List AtomId };

    ghost view = { λ list. list.atoms.items };
}

impl AtomList {
    /// The list with these atoms. It takes no memory.
    pub fn new(atoms: Vec<AtomId>) -> AtomList
        ensures { result ≡ atoms.items }
    {
        AtomList { atoms }
    }

    /// The atoms of the list, in order.
    pub fn as_slice(&self) -> &[AtomId]
        ensures { result.now ≡ self.now }
    {
        self.atoms.as_slice()
    }

    /// The `Vec` of which the list was made. It takes no memory.
    pub fn into_vec(self) -> Vec<AtomId>
        ensures { result.items ≡ self }
    {
        let AtomList { atoms } = self;
        atoms
    }
}

impl PartialEq for AtomList {
    ghost eq = { pointwise same_atom };

    ghost laws = { partial_equiv_from_equiv (lists_equiv same_atom_equiv) };

    fn eq(&self, other: &AtomList) -> bool {
        self.as_slice() == other.as_slice()
    }
}

impl Eq for AtomList {
    ghost laws = { lists_equiv same_atom_equiv };
}

impl Hash for AtomList {
    ghost hash_input = { fed.slice (λ atom. fed.u32 atom.0) };

    ghost respects_eq = { (items_Alike same_atom_fed).fed };

    fn hash<H: Hasher>(&self, state: &mut H) {
        self.as_slice().hash(state);
    }
}

/// What an instance is of: a method at one combination of atoms of its receiver and arguments.
#[derive(Debug, PartialEq, Eq, Hash, Drop)]
pub struct Key {
    /// The method.
    pub method: MethodId,
    /// The atom of the receiver.
    pub receiver: AtomId,
    /// The atoms of the arguments, in order.
    pub args: AtomList,
    /// The block that the call gives, where it gives one.
    pub block: Option<NodeId>,
    /// The instance in which that block is written.
    pub outer: Option<InstanceId>,
}
