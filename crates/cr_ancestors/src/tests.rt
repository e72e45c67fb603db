// Orders of lookup of small hierarchies, and those that lead back to where they began.
use crate::{Ancestors, AncestorsFault, ClassList, Hierarchy, HierarchyFault, Parents};
use cr_base::{ClassId, NoMemory};
use std::alloc::Global;

fn list(alloc: Global, numbers: &[u32]) -> Result<ClassList, NoMemory> {
    let mut classes = Vec::new(alloc);
    for number in numbers {
        classes.push(ClassId(*number))?;
    }
    Ok(ClassList::of(classes))
}

// The classes and modules with these modules, in the order of inclusion, and superclasses.
fn hierarchy(alloc: Global, rows: &[(&[u32], &[u32])]) -> Result<Hierarchy, HierarchyFault> {
    let mut parents = Vec::new(alloc);
    for (modules, superclasses) in rows {
        let modules = list(alloc, modules)?;
        let superclasses = list(alloc, superclasses)?;
        if parents
            .push(Parents {
                modules,
                superclasses,
            })
            .is_err()
        {
            return Err(HierarchyFault::NoMemory);
        }
    }
    Hierarchy::of(alloc, parents.as_slice())
}

// Whether the ancestors of the class 1 have just these numbers.
fn are(ancestors: &Ancestors, numbers: &[u32]) -> bool {
    if ancestors.len() < 2 {
        return false;
    }
    let found = ancestors.get(ClassId(1));
    found.len() == numbers.len()
        && found
            .iter()
            .zip(numbers)
            .all(|(class, number)| class.0 == *number)
}

// What becomes of the class 1 in a hierarchy: whether it has these ancestors, or none for this fault.
fn comes(alloc: Global, rows: &[(&[u32], &[u32])], want: Result<&[u32], AncestorsFault>) -> bool {
    let Ok(hierarchy) = hierarchy(alloc, rows) else {
        return false;
    };
    match (Ancestors::of(alloc, &hierarchy), want) {
        (Ok(found), Ok(numbers)) => are(&found, numbers),
        (Err(fault), Err(other)) => fault == other,
        _ => false,
    }
}

#[test]
fn places_of_lookup_stand_in_their_order(rt: HostRuntime) {
    let alloc = rt.alloc();
    // A class alone; two modules; a module that two include; a module above the superclass too; a superclass that is declared later.
    assert!(rt; comes(alloc, &[(&[], &[]), (&[], &[0])], Ok(&[1, 0])));
    assert!(rt;
        comes(
            alloc,
            &[(&[], &[]), (&[2, 3], &[0]), (&[], &[]), (&[], &[])],
            Ok(&[1, 3, 2, 0])
        )
    );
    assert!(rt;
        comes(
            alloc,
            &[
                (&[], &[]),
                (&[2, 3], &[0]),
                (&[4], &[]),
                (&[4], &[]),
                (&[], &[])
            ],
            Ok(&[1, 3, 4, 2, 0])
        )
    );
    assert!(rt;
        comes(
            alloc,
            &[(&[], &[]), (&[3], &[2]), (&[3], &[0]), (&[], &[])],
            Ok(&[1, 3, 2, 0])
        )
    );
    assert!(rt;
        comes(
            alloc,
            &[(&[], &[]), (&[], &[2]), (&[], &[3]), (&[], &[0])],
            Ok(&[1, 2, 3, 0])
        )
    );
    // Modules that include one another, a class below itself, and what is only below such a class.
    assert!(rt;
        comes(
            alloc,
            &[(&[], &[]), (&[2], &[0]), (&[3], &[]), (&[2], &[])],
            Err(AncestorsFault::Cyclic)
        )
    );
    assert!(rt;
        comes(
            alloc,
            &[(&[], &[]), (&[], &[1])],
            Err(AncestorsFault::Cyclic)
        )
    );
    assert!(rt;
        comes(
            alloc,
            &[(&[], &[]), (&[], &[0]), (&[], &[2])],
            Err(AncestorsFault::Cyclic)
        )
    );
}

#[test]
fn what_is_above_is_one_of_them(rt: HostRuntime) {
    let alloc = rt.alloc();
    let foreign = hierarchy(alloc, &[(&[], &[]), (&[7], &[0])]);
    assert!(rt; matches!(foreign, Err(HierarchyFault::Foreign)));
}
