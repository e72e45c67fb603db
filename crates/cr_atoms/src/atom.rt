// An atom is compared and hashed whole, so two atoms are equal exactly where their classes and arguments are.
ghost use Rattle.std.specs.Prelude.{◌≡◌, IfOk};
ghost use Rattle.std.specs.Hash as fed;
ghost use Rattle.std.specs.Hash.{items_Alike};
ghost use Rattle.std.specs.Cmp.{partial_equiv_from_equiv};
ghost use Rattle.std.specs.Cmp.Lexicographic.{pointwise, lists_equiv};
ghost use Rattle.cr_atoms.specs.Same.{same_set, same_set_equiv, fed_set, same_set_fed};

use crate::type_set::TypeSet;
use cr_base::{ClassId, NoMemory};
use std::alloc::Global;
use std::hash::{Hash, Hasher};
use std::marker::Model;

/// Type arguments as they are written, each a set of atoms. Contracts see the list of these sets.
#[derive(Debug, Drop)]
pub struct TypeArguments {
    sets: Vec<TypeSet>,
}

impl Model for TypeArguments {
    ghost use Rattle.std.specs.Prelude.{List};
    ghost use Rattle.cr_base.specs.declared.ids.AtomId.{AtomId};

    ghost Value = { List (List AtomId) };

    ghost view = { λ args. args.sets.items };
}

impl TypeArguments {
    /// Copies of these sets, in order.
    pub(crate) fn copies(alloc: Global, args: &[TypeSet]) -> Result<TypeArguments, NoMemory>
        ensures { IfOk result (λ made. made ≡ args.now) }
    {
        let mut sets = Vec::with_capacity(alloc, args.len())?;
        for set in args {
            sets.push(set.copy()?)?;
        }
        Ok(TypeArguments { sets })
    }

    /// The sets, in order.
    pub fn as_slice(&self) -> &[TypeSet]
        ensures { result.now ≡ self.now }
    {
        self.sets.as_slice()
    }
}

impl PartialEq for TypeArguments {
    ghost eq = { pointwise same_set };

    ghost laws = { partial_equiv_from_equiv (lists_equiv same_set_equiv) };

    fn eq(&self, other: &TypeArguments) -> bool {
        self.as_slice() == other.as_slice()
    }
}

impl Eq for TypeArguments {
    ghost laws = { lists_equiv same_set_equiv };
}

impl Hash for TypeArguments {
    ghost hash_input = { fed.slice fed_set };

    ghost respects_eq = { (items_Alike same_set_fed).fed };

    fn hash<H: Hasher>(&self, state: &mut H) {
        self.as_slice().hash(state);
    }
}

/// An atom: a class with its written type arguments.
#[derive(Debug, PartialEq, Eq, Hash, Drop)]
pub struct Atom {
    /// The class.
    pub class: ClassId,
    /// Its type arguments, one for each type parameter of the class.
    pub args: TypeArguments,
}
