// The table holds each atom once, in the order of making, with its depth. The atoms in its arguments were made before
// it, and no depth is past `DEEPEST`.
ghost use Rattle.std.specs.Prelude.{◌≡◌, ◌≤◌, ◌<◌, ◌+◌, ◌^◌, ◌↔◌, ◌++◌, ◌∷◌, [], length, map, slice_get, All, Contains, Some, IfOk, OnOk, OnErr, IsErrOf, IsTrue};
ghost use Rattle.cr_atoms.specs.Table.{written, class_of, args_of, is_of_any, AreMade, IsFront, IsLawful, depth_of, depth_with, greatest};

use crate::atom::{Atom, TypeArguments};
use crate::type_set::TypeSet;
use cr_base::{AtomId, ClassId, NoMemory};
use indexmap::IndexMap;
use std::alloc::{AllocFailed, Global};
use std::marker::Model;

/// The greatest depth of an atom. It is 1 without arguments, and else 1 more than the greatest depth of an atom in
/// them.
pub const DEEPEST: u32 = 6;

/// Why an atom was not made.
#[derive(Clone, Copy, Debug, PartialEq, Eq)]
pub enum AtomFault {
    /// The atom is deeper than `DEEPEST`.
    TooDeep,
    /// Memory ran out.
    NoMemory,
}

impl From<NoMemory> for AtomFault {
    ghost use Rattle.std.specs.Prelude.{◌≡◌};
    ghost use Rattle.cr_atoms.specs.declared.atoms.AtomFault.TheVariants as fault;

    ghost from_gives = { λ _ made. made ≡ fault.NoMemory };

    fn from(_: NoMemory) -> AtomFault {
        AtomFault::NoMemory
    }
}

impl<T: Drop> From<AllocFailed<T>> for AtomFault {
    ghost use Rattle.std.specs.Prelude.{◌≡◌};
    ghost use Rattle.cr_atoms.specs.declared.atoms.AtomFault.TheVariants as fault;

    ghost from_gives = { λ _ made. made ≡ fault.NoMemory };

    fn from(_: AllocFailed<T>) -> AtomFault {
        AtomFault::NoMemory
    }
}

/// The atoms of a program. Contracts see the list of them, in which each stands at its number.
#[derive(Drop)]
pub struct Atoms {
    alloc: Global,
    depths: IndexMap<Atom, u32>,
}

impl Model for Atoms {
    ghost use Rattle.std.specs.Prelude.{List};
    ghost use Rattle.indexmap.specs.IndexMap.{keys, values};
    ghost use Rattle.cr_atoms.specs.declared.atom.Atom.{Atom};
    ghost use Rattle.cr_atoms.specs.Kept.{IsKept};

    ghost Value = { List Atom };

    ghost view = { λ atoms. keys atoms.depths };

    ghost invariant = { λ atoms. IsKept (keys atoms.depths) (values atoms.depths) };
}

impl Atoms {
    /// No atoms. It takes no memory.
    pub fn new(alloc: Global) -> Atoms
        ensures { result ≡ [] }
    {
        Atoms {
            alloc,
            depths: IndexMap::new(alloc),
        }
    }

    /// The number of the atom of this class with these type arguments, which is made last where it is not there:
    /// `TooDeep` exactly where it is deeper than `DEEPEST`.
    pub fn make(&mut self, class: ClassId, args: &[TypeSet]) -> Result<AtomId, AtomFault>
        requires room { length self.old < 2 ^ 32 }
        requires made { AreMade self.old args.now }
        ensures number { IfOk result (λ id. slice_get self.new id.0 ≡ Some (written class args.now)) }
        ensures known { OnOk result (Contains self.old (written class args.now) → self.new ≡ self.old) }
        ensures fresh { OnOk result (¬ Contains self.old (written class args.now) → self.new ≡ self.old ++ (written class args.now) ∷ []) }
        ensures front { OnOk result (IsFront self.old self.new) }
        ensures too_deep { IsErrOf result AtomFault.TooDeep ↔ (DEEPEST < depth_with self.old args.now) }
        ensures err { OnErr result (self.new ≡ self.old) }
    {
        let depth = self.depth_with(args);
        if depth > DEEPEST {
            return Err(AtomFault::TooDeep);
        }
        let args = TypeArguments::copies(self.alloc, args)?;
        let atom = Atom { class, args };
        if let Some(place) = self.depths.get_index_of(&atom) {
            return Ok(AtomId(place as u32));
        }
        let (place, _) = self.depths.insert_full(atom, depth)?;
        Ok(AtomId(place as u32))
    }

    /// The class of an atom.
    pub fn class(&self, atom: AtomId) -> ClassId
        requires { atom.0 < length self.now }
        ensures { class_of self.now atom ≡ Some result }
    {
        self.entry(atom).0.class
    }

    /// The type arguments of an atom, in order.
    pub fn args(&self, atom: AtomId) -> &[TypeSet]
        requires { atom.0 < length self.now }
        ensures { args_of self.now atom ≡ Some result.now }
    {
        self.entry(atom).0.args.as_slice()
    }

    /// The depth of an atom.
    pub fn depth(&self, atom: AtomId) -> u32
        requires { atom.0 < length self.now }
        ensures value { result ≡ depth_of self.now atom }
        ensures within { result ≤ DEEPEST }
    {
        *self.entry(atom).1
    }

    /// How many atoms there are.
    pub fn len(&self) -> usize
        ensures length { result ≡ length self.now }
        ensures lawful { IsLawful self.now }
    {
        self.depths.len()
    }

    /// Whether there is no atom.
    pub fn is_empty(&self) -> bool
        ensures { IsTrue result ↔ (self.now ≡ []) }
    {
        self.len() == 0
    }

    // Whether the class of the atom is one of these.
    pub(crate) fn is_of_any(&self, atom: AtomId, classes: &[ClassId]) -> bool
        ensures { result ≡ is_of_any self.now classes.now atom }
    {
        match self.depths.get_index(atom.0 as usize) {
            Some((made, _)) => classes.contains(&made.class),
            None => false,
        }
    }

    // An atom with its depth.
    fn entry(&self, atom: AtomId) -> (&Atom, &u32)
        requires { atom.0 < length self.now }
        ensures atom { slice_get self.now atom.0 ≡ Some result.0.now }
        ensures depth { result.1.now ≡ depth_of self.now atom }
        ensures within { result.1.now ≤ DEEPEST }
    {
        match self.depths.get_index(atom.0 as usize) {
            Some(entry) => entry,
            None => unreachable!(),
        }
    }

    // The depth of an atom with these arguments.
    fn depth_with(&self, args: &[TypeSet]) -> u32
        requires { AreMade self.now args.now }
        ensures value { result ≡ depth_with self.now args.now }
        ensures within { result ≤ DEEPEST + 1 }
    {
        let mut most = 0;
        for set in args {
            most = self.greatest_depth(set).max(most);
        }
        most + 1
    }

    // The greatest depth of an atom of the set, or 0 where it is empty.
    fn greatest_depth(&self, set: &TypeSet) -> u32
        requires { All (λ atom. atom.0 < length self.now) set.now }
        ensures value { result ≡ greatest (map (depth_of self.now) set.now) }
        ensures within { result ≤ DEEPEST }
    {
        let mut most = 0;
        for atom in set.atoms() {
            most = self.depth(*atom).max(most);
        }
        most
    }
}
