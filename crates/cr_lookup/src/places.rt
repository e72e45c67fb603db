//! The places that a lookup looks at. Those of a class are its ancestors in their order, and the top level behind them.
ghost use Rattle.std.specs.Prelude.{◌≡◌, ◌∷◌, ◌++◌, [], List};
ghost use Rattle.std.specs.List.{list_any};
ghost use Rattle.cr_lookup.specs.declared.method.Place.{Place};
ghost use Rattle.cr_lookup.specs.Choice.{methods_of};
ghost use Rattle.cr_lookup.specs.Places.{looked_at, behind, has_named, first_with};

use crate::method::{Method, MethodList, Place};
use cr_base::NameId;

/// The places that a call looks at, of those of the receiver's class. A call with a receiver, which is one where `top` is false, leaves
/// the top level out; one without looks at the top level alone where the class is the root. Takes no memory.
pub fn places_of_call(places: &[Place], top: bool, root: bool) -> &[Place]
    ensures { (own : List Place) (top_level : Place) →
        places.now ≡ own ++ top_level ∷ [] → result.now ≡ looked_at own top_level top root }
{
    if top && !root {
        return places;
    }
    let own = places.len().saturating_sub(1);
    if top { &places[own..] } else { &places[..own] }
}

/// The places behind one, at which a `super` looks in a method that stands there. Takes no memory.
pub fn places_behind(places: &[Place], place: Place) -> &[Place]
    ensures { result.now ≡ behind place places.now }
{
    for n in 0..places.len() {
        if places[n] == place {
            return &places[n + 1..];
        }
    }
    &[]
}

/// The first place that has a method of this name, and no other, at which a `new` looks for an `initialize`. None where no place has
/// one. Takes no memory.
pub fn first_place_with<'a>(
    methods: &[MethodList],
    places: &'a [Place],
    name: NameId,
) -> &'a [Place]
    ensures { result.now ≡ first_with methods.now name places.now }
{
    for n in 0..places.len() {
        if has_named(methods_of(methods, places[n]), name) {
            return &places[n..n + 1];
        }
    }
    &[]
}

fn has_named(methods: &[Method], name: NameId) -> bool
    ensures { result ≡ has_named methods.now name }
{
    methods.iter().any(|method| method.name == name)
}

/// The methods of a place.
pub(crate) fn methods_of(methods: &[MethodList], place: Place) -> &[Method]
    ensures { result.now ≡ methods_of methods.now place }
{
    match methods.get(place.0 as usize) {
        Some(list) => list.as_slice(),
        None => &[],
    }
}
