// What holds of every set and of every table of atoms, whatever is done to them.
ghost use Rattle.std.specs.Prelude.{◌≡◌, ◌≢◌, ◌<◌, ◌⊎◌, ◌↔◌, ℕ, List, [], length, slice_get, Some, Contains, AllPairs};
ghost use Rattle.cr_base.specs.declared.ids.AtomId.{AtomId};
ghost use Rattle.cr_base.specs.declared.ids.ClassId.{ClassId};
ghost use Rattle.cr_atoms.specs.declared.atom.Atom.{Atom};
ghost use Rattle.cr_atoms.specs.Set.{IsAscending, IsWithin, with_member, joined};
ghost use Rattle.cr_atoms.specs.Table.{IsFront, ArePartsBefore, class_of, args_of, met, without, depth_of, depth_with};

/// The join of two sets is the least set that holds both: it has the atoms of both, and no others.
pub fn join_law()
    ensures ascending { (a b : List AtomId) → IsAscending a → IsAscending (joined a b) }
    ensures members { (a b : List AtomId) (atom : AtomId) →
        Contains (joined a b) atom ↔ (Contains a atom ⊎ Contains b atom) }
    ensures holds_first { (a b : List AtomId) → IsWithin a (joined a b) }
    ensures holds_second { (a b : List AtomId) → IsWithin b (joined a b) }
    ensures least { (a b c : List AtomId) → IsWithin a c → IsWithin b c → IsWithin (joined a b) c }
{}

/// A set to which an atom was added has its old atoms and that one, and no others.
pub fn add_law()
    ensures ascending { (set : List AtomId) (atom : AtomId) → IsAscending set → IsAscending (with_member set atom) }
    ensures members { (set : List AtomId) (atom other : AtomId) →
        Contains (with_member set atom) other ↔ (Contains set other ⊎ (other ≡ atom)) }
{}

/// Two sets that have the same atoms are one: so a set is told by its members.
pub fn set_law()
    ensures { (a b : List AtomId) → IsAscending a → IsAscending b → IsWithin a b → IsWithin b a → a ≡ b }
{}

/// What `meet_class` and `without_nil` keep: exactly the atoms whose class is one of those covered, and exactly those
/// whose class is another, in their order.
pub fn meet_law()
    ensures members { (atoms : List Atom) (classes : List ClassId) (set : List AtomId) (atom : AtomId) →
        Contains (met atoms classes set) atom
        ↔ (Contains set atom × ((class : ClassId) × (class_of atoms atom ≡ Some class) × Contains classes class)) }
    ensures ascending { (atoms : List Atom) (classes : List ClassId) (set : List AtomId) →
        IsAscending set → IsAscending (met atoms classes set) }
    ensures others { (atoms : List Atom) (class : ClassId) (set : List AtomId) (atom : AtomId) →
        Contains (without atoms class set) atom ↔ (Contains set atom × (class_of atoms atom ≢ Some class)) }
    ensures others_ascending { (atoms : List Atom) (class : ClassId) (set : List AtomId) →
        IsAscending set → IsAscending (without atoms class set) }
{}

/// An atom that was made keeps its class, its type arguments and its depth, whatever is made afterwards.
pub fn stay_law()
    ensures atom { (old new : List Atom) (n : ℕ) (atom : Atom) →
        IsFront old new → slice_get old n ≡ Some atom → slice_get new n ≡ Some atom }
    ensures class { (old new : List Atom) (atom : AtomId) →
        IsFront old new → atom.0 < length old → class_of new atom ≡ class_of old atom }
    ensures args { (old new : List Atom) (atom : AtomId) →
        IsFront old new → atom.0 < length old → args_of new atom ≡ args_of old atom }
    ensures depth { (old new : List Atom) (atom : AtomId) →
        IsFront old new → atom.0 < length old → depth_of new atom ≡ depth_of old atom }
    ensures further { (old new newer : List Atom) → IsFront old new → IsFront new newer → IsFront old newer }
{}

/// Two atoms, one of them made first, have one number exactly where they are equal.
pub fn number_law()
    ensures { (old new : List Atom) (m n : ℕ) (a b : Atom) →
        IsFront old new → AllPairs (λ x y. x ≢ y) new →
        slice_get old m ≡ Some a → slice_get new n ≡ Some b → (m ≡ n) ↔ (a ≡ b) }
{}

/// The depth of an atom is 1 without type arguments, and else 1 more than the greatest depth of an atom in them.
pub fn depth_law()
    ensures with_arguments { (atoms : List Atom) (atom : AtomId) (args : List (List AtomId)) →
        ArePartsBefore atoms → args_of atoms atom ≡ Some args → depth_of atoms atom ≡ depth_with atoms args }
    ensures without_arguments { (atoms : List Atom) (atom : AtomId) →
        ArePartsBefore atoms → args_of atoms atom ≡ Some [] → depth_of atoms atom ≡ 1 }
{}
