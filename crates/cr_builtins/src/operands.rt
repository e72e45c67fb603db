//! The operands of an operation: the first argument, as what the operation takes.
ghost use Rattle.std.specs.Prelude.{◌≡◌, IfSome};
ghost use Rattle.std.specs.Option.{option_copied};
ghost use Rattle.cr_value.specs.Arithmetic.{Fits};
ghost use Rattle.cr_builtins.specs.Outcomes.{first, second, number_in, text_in, number_operand, text_operand};

use cr_value::{Text, Value, Width};

/// The first argument.
pub(crate) fn first(arguments: &[Value]) -> Option<&Value>
    ensures { option_copied result ≡ first arguments.now }
{
    match arguments {
        [value, ..] => Some(value),
        [] => None,
    }
}

/// The second argument.
pub(crate) fn second(arguments: &[Value]) -> Option<&Value>
    ensures { option_copied result ≡ second arguments.now }
{
    match arguments {
        [_, value, ..] => Some(value),
        [_] | [] => None,
    }
}

/// The number of an integer of this width.
pub(crate) fn number_in(w: Width, value: &Value) -> Option<i64>
    ensures value { result ≡ number_in w value.now }
    ensures fits { IfSome result (λ n. Fits w n) }
{
    match value {
        Value::Small(number) => small_in(w, *number),
        Value::Big(number) => big_in(w, *number),
        Value::Nil | Value::Flag(_) | Value::Word(_) | Value::Ref(_) => None,
    }
}

/// The number of an Int32, where this is the width that is wanted.
fn small_in(w: Width, number: i32) -> Option<i64>
    ensures value { result ≡ number_in w (Value.Small number) }
    ensures fits { IfSome result (λ n. Fits w n) }
{
    match w {
        Width::Small => Some(i64::from(number)),
        Width::Big => None,
    }
}

/// The number of an Int64, where this is the width that is wanted.
fn big_in(w: Width, number: i64) -> Option<i64>
    ensures value { result ≡ number_in w (Value.Big number) }
    ensures fits { IfSome result (λ n. Fits w n) }
{
    match w {
        Width::Small => None,
        Width::Big => Some(number),
    }
}

/// The text of a text.
pub(crate) fn text_in(value: &Value) -> Option<&Text>
    ensures { option_copied result ≡ text_in value.now }
{
    match value {
        Value::Word(text) => Some(text),
        Value::Nil | Value::Flag(_) | Value::Small(_) | Value::Big(_) | Value::Ref(_) => None,
    }
}

/// The number of the first argument, which is to be an integer of this width.
pub(crate) fn number_operand(w: Width, arguments: &[Value]) -> Option<i64>
    ensures value { result ≡ number_operand w arguments.now }
    ensures fits { IfSome result (λ n. Fits w n) }
{
    match arguments {
        [value, ..] => number_in(w, value),
        [] => None,
    }
}

/// The text of the first argument, which is to be a text.
pub(crate) fn text_operand(arguments: &[Value]) -> Option<&Text>
    ensures { option_copied result ≡ text_operand arguments.now }
{
    match arguments {
        [value, ..] => text_in(value),
        [] => None,
    }
}
