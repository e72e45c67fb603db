//! What an operation that reads no cell gives of its receiver and its arguments.
ghost use Rattle.std.specs.Prelude.{◌≡◌, [], IfOk, if◌then◌else◌};
ghost use Rattle.cr_builtins.specs.Equality.{equal};
ghost use Rattle.cr_builtins.specs.Scalars.{is_nil, is_flag, is_reference, plain_operation, on_number, scalar};

use crate::equality::equal;
use crate::numbers::on_integer;
use crate::operands::{number_in, text_in};
use crate::operation::{NumberOperation, PlainOperation, ScalarOperation, TextOperation};
use crate::outcome::Outcome;
use crate::texts::on_text;
use cr_base::NoMemory;
use cr_value::{Value, Width, show};
use std::alloc::Global;

/// Whether the value is nil.
fn is_nil(value: &Value) -> bool
    ensures { result ≡ is_nil value.now }
{
    matches!(value, Value::Nil)
}

/// Whether the value is a Bool.
fn is_flag(value: &Value) -> bool
    ensures { result ≡ is_flag value.now }
{
    matches!(value, Value::Flag(_))
}

/// Whether the value is a reference.
pub(crate) fn is_reference(value: &Value) -> bool
    ensures { result ≡ is_reference value.now }
{
    matches!(value, Value::Ref(_))
}

/// The text of a value; a reference has none.
fn shown(alloc: Global, value: &Value) -> Result<Outcome, NoMemory>
    ensures { IfOk result (λ given. given ≡ plain_operation PlainOperation.ToText value.now []) }
{
    if is_reference(value) {
        return Ok(Outcome::Stuck);
    }
    Ok(Outcome::Gives(Value::Word(show(alloc, value)?)))
}

/// What nil and a Bool do.
fn plain_operation(
    alloc: Global,
    operation: PlainOperation,
    receiver: &Value,
    arguments: &[Value],
) -> Result<Outcome, NoMemory>
    ensures { IfOk result (λ given. given ≡ plain_operation operation receiver.now arguments.now) }
{
    match operation {
        PlainOperation::Equal => Ok(equal(receiver, arguments)),
        PlainOperation::ToText => shown(alloc, receiver),
    }
}

/// What nil or a Bool does, where the receiver is one.
fn of_plain(
    alloc: Global,
    operation: PlainOperation,
    is_receiver: bool,
    receiver: &Value,
    arguments: &[Value],
) -> Result<Outcome, NoMemory>
    ensures { IfOk result (λ given. given ≡ (if is_receiver then plain_operation operation receiver.now arguments.now else Outcome.Stuck)) }
{
    if is_receiver {
        plain_operation(alloc, operation, receiver, arguments)
    } else {
        Ok(Outcome::Stuck)
    }
}

/// What an integer of this width does, where the receiver is one.
fn on_number(
    alloc: Global,
    operation: NumberOperation,
    w: Width,
    receiver: &Value,
    arguments: &[Value],
) -> Result<Outcome, NoMemory>
    ensures { IfOk result (λ given. given ≡ on_number operation w receiver.now arguments.now) }
{
    match number_in(w, receiver) {
        Some(a) => on_integer(alloc, operation, w, a, arguments),
        None => Ok(Outcome::Stuck),
    }
}

/// What a text does, where the receiver is one.
#[tactic(auto, unfolding(crate::specs::Scalars::scalar))]
fn on_word(
    alloc: Global,
    operation: TextOperation,
    receiver: &Value,
    arguments: &[Value],
) -> Result<Outcome, NoMemory>
    ensures { IfOk result (λ given. given ≡ scalar (ScalarOperation.String operation) receiver.now arguments.now) }
{
    match receiver {
        Value::Word(text) => on_text(alloc, operation, receiver, text, arguments),
        Value::Nil | Value::Flag(_) | Value::Small(_) | Value::Big(_) | Value::Ref(_) => {
            Ok(Outcome::Stuck)
        }
    }
}

/// `==` of a reference, where the receiver is one.
fn on_reference(receiver: &Value, arguments: &[Value]) -> Outcome
    ensures { result ≡ (if is_reference receiver.now then equal receiver.now arguments.now else Outcome.Stuck) }
{
    if is_reference(receiver) {
        equal(receiver, arguments)
    } else {
        Outcome::Stuck
    }
}

/// What an operation that reads no cell gives of its receiver and its arguments: its value, or that it raises; `Stuck`
/// exactly where an operand has a class that the operation does not take.
#[tactic(auto, unfolding(crate::specs::Scalars::scalar))]
pub fn scalar(
    alloc: Global,
    operation: ScalarOperation,
    receiver: &Value,
    arguments: &[Value],
) -> Result<Outcome, NoMemory>
    ensures { IfOk result (λ given. given ≡ scalar operation receiver.now arguments.now) }
{
    match operation {
        ScalarOperation::Same(_) => Ok(on_reference(receiver, arguments)),
        ScalarOperation::Nil(operation) => {
            of_plain(alloc, operation, is_nil(receiver), receiver, arguments)
        }
        ScalarOperation::Bool(operation) => {
            of_plain(alloc, operation, is_flag(receiver), receiver, arguments)
        }
        ScalarOperation::Int32(operation) => {
            on_number(alloc, operation, Width::Small, receiver, arguments)
        }
        ScalarOperation::Int64(operation) => {
            on_number(alloc, operation, Width::Big, receiver, arguments)
        }
        ScalarOperation::String(operation) => on_word(alloc, operation, receiver, arguments),
    }
}
