//! Which calls a method matches, and how two methods compare.
ghost use Rattle.std.specs.Prelude.{◌≡◌, ◌↔◌, ◌<◌, IsTrue, length, slice_get, Some};
ghost use Rattle.cr_ancestors.specs.Line.{has};
ghost use Rattle.cr_lookup.specs.Methods.{fits, FitsAll, Matches, IsWithin, EachPair, IsBelow, Meets, Overlaps, Clash};

use crate::method::{Method, Sought, Takes};
use cr_base::ClassId;

/// Whether a parameter takes a class.
fn fits(takes: &Takes, class: ClassId) -> bool
    ensures { result ≡ fits takes.now class }
{
    match takes {
        Takes::Any => true,
        Takes::Only(classes) => has(classes.as_slice(), class),
    }
}

fn has(classes: &[ClassId], class: ClassId) -> bool
    ensures { result ≡ has classes.now class }
{
    classes.contains(&class)
}

/// What the parameter at a place takes.
fn takes_at(parameters: &[Takes], i: usize) -> &Takes
    requires { i < length parameters.now }
    ensures { slice_get parameters.now i ≡ Some result.now }
{
    &parameters[i]
}

fn class_at(args: &[ClassId], i: usize) -> ClassId
    requires { i < length args.now }
    ensures { slice_get args.now i ≡ Some result }
{
    args[i]
}

/// Whether each argument is taken by the parameter in its place.
fn fits_all(parameters: &[Takes], args: &[ClassId]) -> bool
    requires { length args.now ≡ length parameters.now }
    ensures { IsTrue result ↔ FitsAll parameters.now args.now }
{
    for i in 0..parameters.len() {
        if !fits(takes_at(parameters, i), class_at(args, i)) {
            return false;
        }
    }
    true
}

/// Whether the method matches a call.
pub(crate) fn matches(method: &Method, sought: Sought, args: &[ClassId]) -> bool
    ensures { IsTrue result ↔ Matches method.now sought args.now }
{
    let parameters = method.parameters.as_slice();
    method.name == sought.name
        && method.block == sought.block
        && !has(method.passed_over.as_slice(), sought.receiver)
        && args.len() == parameters.len()
        && fits_all(parameters, args)
}

/// Whether each of so many classes that the first takes, the second takes.
fn is_within(classes: u32, a: &Takes, b: &Takes) -> bool
    ensures { IsTrue result ↔ IsWithin classes a.now b.now }
{
    match a {
        Takes::Any => takes_each(classes, b),
        Takes::Only(list) => takes_all_of(classes, list.as_slice(), b),
    }
}

/// Whether each of so many classes is taken.
fn takes_each(classes: u32, takes: &Takes) -> bool
    ensures { IsTrue result ↔ IsWithin classes Takes.Any takes.now }
{
    match takes {
        Takes::Any => true,
        Takes::Only(list) => lists_each(classes, list.as_slice()),
    }
}

fn lists_each(classes: u32, list: &[ClassId]) -> bool
    ensures { IsTrue result ↔ IsWithin classes Takes.Any (Takes.Only list.now) }
{
    for number in 0..classes {
        if !has(list, ClassId(number)) {
            return false;
        }
    }
    true
}

/// Whether these classes are taken, as far as they are among so many.
fn takes_all_of(classes: u32, list: &[ClassId], takes: &Takes) -> bool
    ensures { IsTrue result ↔ IsWithin classes (Takes.Only list.now) takes.now }
{
    for class in list {
        if class.0 < classes && !fits(takes, *class) {
            return false;
        }
    }
    true
}

/// Whether one of so many classes is taken by both.
fn meets(classes: u32, a: &Takes, b: &Takes) -> bool
    ensures { IsTrue result ↔ Meets classes a.now b.now }
{
    match a {
        Takes::Any => takes_some(classes, b),
        Takes::Only(list) => takes_one_of(classes, list.as_slice(), b),
    }
}

/// Whether one of so many classes is taken.
fn takes_some(classes: u32, takes: &Takes) -> bool
    ensures { IsTrue result ↔ Meets classes Takes.Any takes.now }
{
    match takes {
        Takes::Any => classes > 0,
        Takes::Only(list) => lists_some(classes, list.as_slice()),
    }
}

fn lists_some(classes: u32, list: &[ClassId]) -> bool
    ensures { IsTrue result ↔ Meets classes Takes.Any (Takes.Only list.now) }
{
    for class in list {
        if class.0 < classes {
            return true;
        }
    }
    false
}

/// Whether one of these classes is taken, and is among so many.
fn takes_one_of(classes: u32, list: &[ClassId], takes: &Takes) -> bool
    ensures { IsTrue result ↔ Meets classes (Takes.Only list.now) takes.now }
{
    for class in list {
        if class.0 < classes && fits(takes, *class) {
            return true;
        }
    }
    false
}

/// Whether the first method is at least as special as the second, parameter by parameter.
pub(crate) fn is_below(classes: u32, m: &Method, n: &Method) -> bool
    ensures { IsTrue result ↔ IsBelow classes m.now n.now }
{
    let (first, second) = (m.parameters.as_slice(), n.parameters.as_slice());
    first.len() == second.len() && are_within(classes, first, second)
}

fn are_within(classes: u32, first: &[Takes], second: &[Takes]) -> bool
    requires { length first.now ≡ length second.now }
    ensures { IsTrue result ↔ EachPair (IsWithin classes) first.now second.now }
{
    for i in 0..first.len() {
        if !is_within(classes, takes_at(first, i), takes_at(second, i)) {
            return false;
        }
    }
    true
}

/// Whether some arguments match both methods.
fn overlaps(classes: u32, m: &Method, n: &Method) -> bool
    ensures { IsTrue result ↔ Overlaps classes m.now n.now }
{
    let (first, second) = (m.parameters.as_slice(), n.parameters.as_slice());
    first.len() == second.len() && meet_all(classes, first, second)
}

fn meet_all(classes: u32, first: &[Takes], second: &[Takes]) -> bool
    requires { length first.now ≡ length second.now }
    ensures { IsTrue result ↔ EachPair (Meets classes) first.now second.now }
{
    for i in 0..first.len() {
        if !meets(classes, takes_at(first, i), takes_at(second, i)) {
            return false;
        }
    }
    true
}

/// Whether two methods of a place clash: they overlap, and neither is below the other.
pub(crate) fn clash(classes: u32, m: &Method, n: &Method) -> bool
    ensures { IsTrue result ↔ Clash classes m.now n.now }
{
    m.name == n.name
        && m.block == n.block
        && overlaps(classes, m, n)
        && !is_below(classes, m, n)
        && !is_below(classes, n, m)
}
