use super::*;
use cr_base::{AtomId, ClassId, NoMemory};
use std::alloc::Global;
use std::test::Fail;

const INT32: ClassId = ClassId(3);

const HASH: ClassId = ClassId(7);

// The set with these atoms.
fn set_of(alloc: Global, numbers: &[u32]) -> Result<TypeSet, NoMemory> {
    let mut set = TypeSet::new(alloc);
    for number in numbers {
        set.add(AtomId(*number))?;
    }
    Ok(set)
}

// Whether the set has just these atoms, in this order.
fn is_just(set: &TypeSet, numbers: &[u32]) -> bool {
    set.atoms().len() == numbers.len()
        && set
            .atoms()
            .iter()
            .zip(numbers)
            .all(|(atom, number)| atom.0 == *number)
}

// Whether the join of two sets has just these atoms, whichever comes first, and its copy too.
fn joins(alloc: Global, a: &[u32], b: &[u32], want: &[u32]) -> Result<bool, NoMemory> {
    let (a, b) = (set_of(alloc, a)?, set_of(alloc, b)?);
    let both = join(alloc, &a, &b)?;
    Ok(is_just(&both, want) && both == join(alloc, &b, &a)? && both == both.copy()?)
}

#[test]
fn sets_are_ascending_and_without_repeats(rt: HostRuntime) -> Result<(), Fail> {
    let alloc = rt.alloc();
    assert!(rt; joins(alloc, &[], &[], &[])?);
    assert!(rt; joins(alloc, &[3, 1, 3], &[], &[1, 3])?);
    assert!(rt; joins(alloc, &[5, 1, 9], &[9, 5, 1], &[1, 5, 9])?);
    assert!(rt; joins(alloc, &[1, 4, 6, 8], &[7, 2, 4, 0], &[0, 1, 2, 4, 6, 7, 8])?);
    assert!(rt; joins(alloc, &[1, 2], &[4, 3], &[1, 2, 3, 4])?);
    Ok(())
}

// Makes an atom without type arguments, in a table of a few atoms.
fn make_plain(atoms: &mut Atoms, class: ClassId) -> Result<AtomId, AtomFault> {
    if atoms.len() > 100 {
        return Err(AtomFault::NoMemory);
    }
    atoms.make(class, &[])
}

// Makes an atom whose type arguments have the first atom and this one, in a table of a few atoms.
fn make_around(alloc: Global, atoms: &mut Atoms, part: AtomId) -> Result<AtomId, AtomFault> {
    if atoms.is_empty() || atoms.len() > 100 || part.0 as usize >= atoms.len() {
        return Err(AtomFault::NoMemory);
    }
    let (mut first, mut second) = (TypeSet::new(alloc), TypeSet::new(alloc));
    first.add(AtomId(0))?;
    second.add(part)?;
    atoms.make(HASH, &[first, second])
}

// Whether this atom was made, of this class, at this depth, with as many type arguments.
fn is_at(atoms: &Atoms, atom: AtomId, class: ClassId, depth: u32, args: usize) -> bool {
    (atom.0 as usize) < atoms.len()
        && atoms.class(atom) == class
        && atoms.depth(atom) == depth
        && atoms.args(atom).len() == args
}

#[test]
fn an_atom_is_at_most_six_deep(rt: HostRuntime) -> Result<(), Fail> {
    let alloc = rt.alloc();
    let mut atoms = Atoms::new(alloc);
    assert_eq!(rt; make_plain(&mut atoms, INT32), Ok(AtomId(0)));
    for (part, want) in [
        (0, Ok(AtomId(1))),
        (1, Ok(AtomId(2))),
        (2, Ok(AtomId(3))),
        (3, Ok(AtomId(4))),
        (4, Ok(AtomId(5))),
        (5, Err(AtomFault::TooDeep)),
        (4, Ok(AtomId(5))),
        (0, Ok(AtomId(1))),
    ] {
        assert_eq!(rt;
            make_around(alloc, &mut atoms, AtomId(part)),
            want,
            "around {part}"
        );
    }
    assert!(rt; is_at(&atoms, AtomId(0), INT32, 1, 0));
    assert!(rt; is_at(&atoms, AtomId(5), HASH, 6, 2));
    assert_eq!(rt; atoms.len(), 6);
    Ok(())
}

// What is left of a set where its classes are met, and where Nil is left out.
fn narrowed(
    alloc: Global,
    atoms: &Atoms,
    numbers: &[u32],
    covered: &[ClassId],
) -> Result<(TypeSet, TypeSet), NoMemory> {
    let (mut met, mut without) = (set_of(alloc, numbers)?, set_of(alloc, numbers)?);
    met.meet_class(atoms, covered);
    without.without_nil(atoms);
    Ok((met, without))
}

#[test]
fn a_set_is_narrowed_by_the_classes_of_its_atoms(rt: HostRuntime) -> Result<(), Fail> {
    let alloc = rt.alloc();
    let mut atoms = Atoms::new(alloc);
    for (class, want) in [(INT32, 0), (NIL, 1), (HASH, 2), (NIL, 1), (ClassId(0), 3)] {
        assert_eq!(rt; make_plain(&mut atoms, class), Ok(AtomId(want)));
    }
    let (met, without) = narrowed(alloc, &atoms, &[0, 1, 2, 3], &[HASH, INT32])?;
    assert!(rt; is_just(&met, &[0, 2]));
    assert!(rt; is_just(&without, &[0, 2, 3]));
    let (met, without) = narrowed(alloc, &atoms, &[1], &[NIL, NIL])?;
    assert!(rt; is_just(&met, &[1]));
    assert!(rt; is_just(&without, &[]));
    Ok(())
}
