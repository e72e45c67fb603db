//! `==` of each class.
ghost use Rattle.std.specs.Prelude.{◌≡◌};
ghost use Rattle.cr_builtins.specs.Equality.{are_two_widths, same, equal_to, equal};

use crate::operands::first;
use crate::outcome::Outcome;
use cr_value::Value;

/// Whether the values have one class and are equal there.
pub(crate) fn same(a: &Value, b: &Value) -> bool
    ensures { result ≡ same a.now b.now }
{
    a.is_same(b)
}

/// Whether the values are integers of two widths.
fn are_two_widths(a: &Value, b: &Value) -> bool
    ensures { result ≡ are_two_widths a.now b.now }
{
    match (a, b) {
        (Value::Small(_), Value::Big(_)) | (Value::Big(_), Value::Small(_)) => true,
        _ => false,
    }
}

/// `==` of a receiver and an argument.
fn equal_to(a: &Value, b: &Value) -> Outcome
    ensures { result ≡ equal_to a.now b.now }
{
    if are_two_widths(a, b) {
        Outcome::Stuck
    } else {
        Outcome::Gives(Value::Flag(same(a, b)))
    }
}

/// `==` of a receiver.
pub(crate) fn equal(receiver: &Value, arguments: &[Value]) -> Outcome
    ensures { result ≡ equal receiver.now arguments.now }
{
    match first(arguments) {
        Some(argument) => equal_to(receiver, argument),
        None => Outcome::Stuck,
    }
}
