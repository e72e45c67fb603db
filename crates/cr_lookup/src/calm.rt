//! Overloads of a place that clash.
ghost use Rattle.std.specs.Prelude.{◌≡◌, ◌↔◌, ◌<◌, IsTrue, length};
ghost use Rattle.cr_lookup.specs.Methods.{ClashesAt, IsCalm};

use crate::method::{Method, method_at};
use crate::rules::clash;

/// Whether no two methods of a place clash. Takes no memory.
pub fn is_calm(classes: u32, methods: &[Method]) -> bool
    ensures { IsTrue result ↔ IsCalm classes methods.now }
{
    for n in 0..methods.len() {
        if clashes(classes, methods, n) {
            return false;
        }
    }
    true
}

/// Whether a method clashes with one that stands before it in its place. Takes no memory.
pub fn clashes(classes: u32, methods: &[Method], n: usize) -> bool
    requires { n < length methods.now }
    ensures { IsTrue result ↔ ClashesAt classes methods.now n }
{
    let later = method_at(methods, n);
    for i in 0..n {
        if clash(classes, method_at(methods, i), later) {
            return true;
        }
    }
    false
}
