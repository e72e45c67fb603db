// Overloads of one place, places one behind another, and what a lookup looks at.
ghost use Rattle.std.specs.Prelude.{◌<◌, All, IsTrue};
ghost use Rattle.cr_lookup.specs.Methods.{IsCalm};

use crate::{
    Method, MethodList, Parameters, Place, Sought, Takes, choose, first_place_with, is_calm,
    places_behind, places_of_call,
};
use cr_ancestors::ClassList;
use cr_base::{ClassId, MethodId, NameId, NoMemory};
use std::alloc::Global;
use std::test::Fail;

fn list(alloc: Global, numbers: &[u32]) -> Result<ClassList, NoMemory> {
    let mut classes = Vec::new(alloc);
    for number in numbers {
        classes.push(ClassId(*number))?;
    }
    Ok(ClassList::of(classes))
}

// A method with one parameter, which takes these classes.
fn method(alloc: Global, number: u32, classes: &[u32]) -> Result<Method, NoMemory> {
    let mut takes = Vec::new(alloc);
    takes.push(Takes::Only(list(alloc, classes)?))?;
    Ok(Method {
        id: MethodId(number),
        name: NameId(7),
        block: false,
        parameters: Parameters::of(takes),
        passed_over: list(alloc, &[])?,
    })
}

// A place with the methods 0 and 1, of which the second takes fewer classes, and one with the method 2.
fn two_places(alloc: Global) -> Result<Vec<MethodList>, NoMemory> {
    let mut first = Vec::new(alloc);
    first.push(method(alloc, 0, &[0, 1])?)?;
    first.push(method(alloc, 1, &[1])?)?;
    let mut second = Vec::new(alloc);
    second.push(method(alloc, 2, &[0, 1, 2])?)?;
    let mut places = Vec::new(alloc);
    places.push(MethodList::of(first))?;
    places.push(MethodList::of(second))?;
    Ok(places)
}

fn are_calm(methods: &[MethodList]) -> bool
    ensures { IsTrue result → All (IsCalm 4) methods.now }
{
    for list in methods {
        if !is_calm(4, list.as_slice()) {
            return false;
        }
    }
    true
}

// What is chosen for an argument of this class, where it is one of four and no methods clash.
fn chosen(methods: &[MethodList], places: &[Place], class: u32) -> Option<u32> {
    if class >= 4 || !are_calm(methods) {
        return None;
    }
    let sought = Sought {
        receiver: ClassId(0),
        name: NameId(7),
        block: false,
    };
    Some(choose(4, methods, places, sought, &[ClassId(class)])?.0)
}

#[test]
fn the_most_special_match_of_the_first_place_is_chosen(rt: HostRuntime) -> Result<(), Fail> {
    let alloc = rt.alloc();
    let methods = two_places(alloc)?;
    let places = [Place(0), Place(1)];
    assert!(rt; matches!(chosen(&methods, &places, 0), Some(0)));
    assert!(rt; matches!(chosen(&methods, &places, 1), Some(1)));
    assert!(rt; matches!(chosen(&methods, &places, 2), Some(2)));
    assert!(rt; chosen(&methods, &places, 3).is_none());
    // A `super` in the first place looks at the second; a call with a receiver leaves out the last.
    assert!(rt;
        matches!(
            chosen(&methods, places_behind(&places, Place(0)), 1),
            Some(2)
        )
    );
    assert!(rt; chosen(&methods, places_of_call(&places, false, false), 2).is_none());
    assert!(rt;
        matches!(
            chosen(&methods, places_of_call(&places, true, true), 1),
            Some(2)
        )
    );
    let with_name = first_place_with(&methods, &places, NameId(7));
    assert!(rt; chosen(&methods, with_name, 2).is_none());
    assert!(rt; first_place_with(&methods, &places, NameId(8)).is_empty());
    Ok(())
}
