//! What a text does.
ghost use Rattle.std.specs.Prelude.{◌≡◌, ◌≤◌, length, IfOk, nat_eq};
ghost use Rattle.std.specs.Str.{chars};
ghost use Rattle.std.specs.List.{starts_with};
ghost use Rattle.cr_value.specs.Arithmetic.{Fits};
ghost use Rattle.cr_builtins.specs.Answers.{IsLimited};
ghost use Rattle.cr_builtins.specs.Texts.{count, repeated, on_text};

use crate::equality::equal;
use crate::numbers::compare;
use crate::operands::{number_operand, text_operand};
use crate::operation::{Comparison, TextOperation};
use crate::outcome::Outcome;
use crate::raise::Raise;
use cr_base::NoMemory;
use cr_value::{TEXT_LIMIT, Text, TextFault, Value, Width};
use std::alloc::Global;

/// The text that was made, if it is not too long.
fn limited(made: Result<Text, TextFault>) -> Result<Outcome, NoMemory>
    ensures { IfOk result (λ given. IsLimited made given) }
{
    match made {
        Ok(text) => Ok(Outcome::Gives(Value::Word(text))),
        Err(TextFault::TooLong) => Ok(Outcome::Raises(Raise::Limit)),
        Err(TextFault::NoMemory) => Err(NoMemory),
    }
}

/// The text, and then the first argument.
#[tactic(auto, unfolding(crate::specs::Texts::on_text))]
fn joined(alloc: Global, text: &Text, arguments: &[Value]) -> Result<Outcome, NoMemory>
    ensures { IfOk result (λ given. given ≡ on_text TextOperation.Join text.now arguments.now) }
{
    match text_operand(arguments) {
        Some(other) => limited(Text::join(alloc, text, other)),
        None => Ok(Outcome::Stuck),
    }
}

/// The text as many times as the first argument says.
#[tactic(auto, unfolding(crate::specs::Texts::on_text))]
fn repeated(alloc: Global, text: &Text, arguments: &[Value]) -> Result<Outcome, NoMemory>
    ensures { IfOk result (λ given. given ≡ on_text TextOperation.Repeat text.now arguments.now) }
{
    match number_operand(Width::Small, arguments) {
        Some(times) => repeated_times(alloc, text, times),
        None => Ok(Outcome::Stuck),
    }
}

/// The text as many times as this Int32 says.
fn repeated_times(alloc: Global, text: &Text, times: i64) -> Result<Outcome, NoMemory>
    requires { Fits Width.Small times }
    ensures { IfOk result (λ given. given ≡ repeated text.now times) }
{
    match u32::try_from(times) {
        Ok(times) => limited(Text::times(alloc, text, times)),
        Err(_) => Ok(Outcome::Raises(Raise::Argument)),
    }
}

/// How the text and the first argument compare.
#[tactic(auto, unfolding(crate::specs::Texts::on_text))]
fn compared(operation: Comparison, text: &Text, arguments: &[Value]) -> Outcome
    ensures { result ≡ on_text (TextOperation.Compare operation) text.now arguments.now }
{
    match text_operand(arguments) {
        Some(other) => Outcome::Gives(Value::Flag(compare(operation, text.compare(other)))),
        None => Outcome::Stuck,
    }
}

/// Whether the bytes of the front are the first ones of the text.
fn begins(text: &Text, front: &Text) -> bool
    ensures { result ≡ starts_with nat_eq text.now front.now }
{
    text.as_bytes().starts_with(front.as_bytes())
}

/// Whether the text begins with the first argument.
#[tactic(auto, unfolding(crate::specs::Texts::on_text))]
fn starts(text: &Text, arguments: &[Value]) -> Outcome
    ensures { result ≡ on_text TextOperation.StartsWith text.now arguments.now }
{
    match text_operand(arguments) {
        Some(front) => Outcome::Gives(Value::Flag(begins(text, front))),
        None => Outcome::Stuck,
    }
}

/// A number of characters or bytes.
fn count(number: u32) -> Outcome
    requires { number ≤ TEXT_LIMIT }
    ensures { result ≡ count number }
{
    Outcome::Gives(Value::Small(number as i32))
}

/// The number of characters.
fn size(text: &Text) -> u32
    ensures value { result ≡ length (chars text.now) }
    ensures within { result ≤ TEXT_LIMIT }
{
    // A text has no more characters than bytes.
    let _bytes = text.byte_size();
    text.size()
}

/// What a text does. The receiver is this text.
#[tactic(auto, unfolding(crate::specs::Texts::on_text))]
pub(crate) fn on_text(
    alloc: Global,
    operation: TextOperation,
    receiver: &Value,
    text: &Text,
    arguments: &[Value],
) -> Result<Outcome, NoMemory>
    requires { receiver.now ≡ Value.Word text.now }
    ensures { IfOk result (λ given. given ≡ on_text operation text.now arguments.now) }
{
    match operation {
        TextOperation::Join => joined(alloc, text, arguments),
        TextOperation::Repeat => repeated(alloc, text, arguments),
        TextOperation::Equal => Ok(equal(receiver, arguments)),
        TextOperation::Compare(comparison) => Ok(compared(comparison, text, arguments)),
        TextOperation::Size => Ok(count(size(text))),
        TextOperation::ByteSize => Ok(count(text.byte_size())),
        TextOperation::IsEmpty => Ok(Outcome::Gives(Value::Flag(text.byte_size() == 0))),
        TextOperation::StartsWith => Ok(starts(text, arguments)),
        TextOperation::ToText => Ok(Outcome::Gives(Value::Word(text.copy(alloc)?))),
    }
}
