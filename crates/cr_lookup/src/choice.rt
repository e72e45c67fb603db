//! The choice of a method.
ghost use Rattle.std.specs.Prelude.{◌≡◌, ◌<◌, ◌+◌, All, length, slice_get, Some};
ghost use Rattle.cr_lookup.specs.Methods.{IsCalm};
ghost use Rattle.cr_lookup.specs.Choice.{IsLeastIfAny, IsLeastAtIfAny, IsChoice};

use crate::method::{Method, MethodList, Place, Sought, method_at};
use crate::places::methods_of;
use crate::rules::{is_below, matches};
use cr_base::{ClassId, MethodId};

/// The pointwise least match of the first of these places that has a match; None exactly where none has. No two methods of a place
/// clash, and the arguments' classes are among so many. Takes no memory.
pub fn choose(
    classes: u32,
    methods: &[MethodList],
    places: &[Place],
    sought: Sought,
    args: &[ClassId],
) -> Option<MethodId>
    requires calm { All (IsCalm classes) methods.now }
    requires classes { All (λ class. class.0 < classes) args.now }
    ensures { IsChoice classes methods.now places.now sought args.now result }
{
    for k in 0..places.len() {
        let here = methods_of(methods, place_at(places, k));
        if let Some(id) = least_at(classes, here, sought, args) {
            return Some(id);
        }
    }
    None
}

fn place_at(places: &[Place], k: usize) -> Place
    requires { k < length places.now }
    ensures { slice_get places.now k ≡ Some result }
{
    places[k]
}

/// The number of the pointwise least match of a place.
fn least_at(classes: u32, methods: &[Method], sought: Sought, args: &[ClassId]) -> Option<MethodId>
    requires calm { IsCalm classes methods.now }
    requires classes { All (λ class. class.0 < classes) args.now }
    ensures { IsLeastAtIfAny classes methods.now sought args.now result }
{
    let least = least(classes, methods, sought, args)?;
    Some(method_at(methods, least).id)
}

/// The place of the pointwise least match among these methods.
fn least(classes: u32, methods: &[Method], sought: Sought, args: &[ClassId]) -> Option<usize>
    requires calm { IsCalm classes methods.now }
    requires classes { All (λ class. class.0 < classes) args.now }
    ensures { IsLeastIfAny classes methods.now sought args.now (length methods.now) result }
{
    let mut best = None;
    for n in 0..methods.len() {
        best = better(classes, methods, sought, args, n, best);
    }
    best
}

/// The least match among the first methods, with one more.
fn better(
    classes: u32,
    methods: &[Method],
    sought: Sought,
    args: &[ClassId],
    n: usize,
    best: Option<usize>,
) -> Option<usize>
    requires calm { IsCalm classes methods.now }
    requires classes { All (λ class. class.0 < classes) args.now }
    requires within { n < length methods.now }
    requires before { IsLeastIfAny classes methods.now sought args.now n best }
    ensures { IsLeastIfAny classes methods.now sought args.now (n + 1) result }
{
    let method = method_at(methods, n);
    if !matches(method, sought, args) {
        return best;
    }
    let Some(b) = best else {
        return Some(n);
    };
    let old = method_at(methods, b);
    if is_below(classes, method, old) {
        return Some(n);
    }
    best
}
