// A set is its atoms in ascending order, each once. So a look-up is a binary search and a join is one merge.
ghost use Rattle.std.specs.Prelude.{◌≡◌, [], IfOk, OnOk, OnErr};
ghost use Rattle.std.specs.Cmp.{partial_equiv_from_equiv};
ghost use Rattle.cr_atoms.specs.Set.{IsAscending, with_member, joined};
ghost use Rattle.cr_atoms.specs.Table.{met, without};
ghost use Rattle.cr_atoms.specs.Same.{same_set, same_set_equiv, fed_set, same_set_fed};

use crate::atoms::Atoms;
use cr_base::{AtomId, ClassId, NoMemory};
use std::alloc::Global;
use std::cmp::Ordering;
use std::hash::{Hash, Hasher};
use std::marker::Model;

/// The class `Nil`. It is the second of the built-in classes, behind `Object`.
pub const NIL: ClassId = ClassId(1);

/// A type: a set of atoms. Contracts see the list of them, which is strictly ascending.
#[derive(Debug, Drop)]
pub struct TypeSet {
    atoms: Vec<AtomId>,
}

impl Model for TypeSet {
    ghost use Rattle.std.specs.Prelude.{List};
    ghost use Rattle.cr_base.specs.declared.ids.AtomId.{AtomId};
    ghost use Rattle.cr_atoms.specs.Set.{IsAscending};

    ghost Value = { List AtomId };

    ghost view = { λ set. set.atoms.items };

    ghost invariant = { λ set. IsAscending set.atoms.items };
}

impl TypeSet {
    /// The empty set. It takes no memory.
    pub fn new(alloc: Global) -> TypeSet
        ensures { result ≡ [] }
    {
        TypeSet {
            atoms: Vec::new(alloc),
        }
    }

    /// Puts an atom into the set, at its place.
    pub fn add(&mut self, atom: AtomId) -> Result<(), NoMemory>
        ensures ok { OnOk result (self.new ≡ with_member self.old atom) }
        ensures err { OnErr result (self.new ≡ self.old) }
    {
        if let Err(place) = self.atoms.binary_search(&atom) {
            self.atoms.insert(place, atom)?;
        }
        Ok(())
    }

    /// The atoms of the set, in ascending order.
    pub fn atoms(&self) -> &[AtomId]
        ensures value { result.now ≡ self.now }
        ensures ascending { IsAscending result.now }
    {
        self.atoms.as_slice()
    }

    /// A second set with the same atoms.
    pub fn copy(&self) -> Result<TypeSet, NoMemory>
        ensures { IfOk result (λ set. set ≡ self.now) }
    {
        Ok(TypeSet {
            atoms: Vec::from_slice(*self.atoms.allocator(), self.atoms())?,
        })
    }

    /// Keeps exactly the atoms whose class is one of those that are covered.
    pub fn meet_class(&mut self, atoms: &Atoms, covered: &[ClassId])
        ensures { self.new ≡ met atoms.now covered.now self.old }
    {
        self.atoms.retain(|atom| atoms.is_of_any(*atom, covered));
    }

    /// Keeps exactly the atoms whose class is not `NIL`.
    pub fn without_nil(&mut self, atoms: &Atoms)
        ensures { self.new ≡ without atoms.now NIL self.old }
    {
        self.atoms.retain(|atom| !atoms.is_of_any(*atom, &[NIL]));
    }
}

impl PartialEq for TypeSet {
    ghost eq = { same_set };

    ghost laws = { partial_equiv_from_equiv same_set_equiv };

    fn eq(&self, other: &TypeSet) -> bool {
        self.atoms() == other.atoms()
    }
}

impl Eq for TypeSet {
    ghost laws = { same_set_equiv };
}

impl Hash for TypeSet {
    ghost hash_input = { fed_set };

    ghost respects_eq = { same_set_fed.fed };

    fn hash<H: Hasher>(&self, state: &mut H) {
        self.atoms().hash(state);
    }
}

/// The atoms of both sets, by one merge.
pub fn join(alloc: Global, a: &TypeSet, b: &TypeSet) -> Result<TypeSet, NoMemory>
    ensures { IfOk result (λ set. set ≡ joined a.now b.now) }
{
    let (a, b) = (a.atoms(), b.atoms());
    let mut atoms = Vec::with_capacity(alloc, a.len() + b.len())?;
    let (mut i, mut j) = (0, 0);
    while i < a.len() && j < b.len() {
        let (x, y) = (a[i], b[j]);
        match x.cmp(&y) {
            Ordering::Less => {
                atoms.push(x)?;
                i += 1;
            }
            Ordering::Equal => {
                atoms.push(x)?;
                i += 1;
                j += 1;
            }
            Ordering::Greater => {
                atoms.push(y)?;
                j += 1;
            }
        }
    }
    atoms.extend_from_slice(&a[i..])?;
    atoms.extend_from_slice(&b[j..])?;
    Ok(TypeSet { atoms })
}
