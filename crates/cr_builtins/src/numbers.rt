//! What the integers of each width do.
ghost use Rattle.std.specs.Prelude.{◌≡◌, IfSome, IfOk, neg_ℤ};
ghost use Rattle.std.specs.Fmt.{signed_decimal};
ghost use Rattle.cr_value.specs.Arithmetic.{Fits};
ghost use Rattle.cr_builtins.specs.Numbers.{integer, checked, reckon, on_integer, compare};
ghost use Rattle.cr_builtins.specs.Answers.{told, divided};

use crate::equality::equal;
use crate::operands::number_operand;
use crate::operation::{Comparison, NumberOperation, Reckoning};
use crate::outcome::Outcome;
use crate::raise::Raise;
use cr_base::NoMemory;
use cr_value::{
    Division, Value, Width, add, floor_div, floor_mod, mul, neg, show, sub, wrap_add, wrap_mul,
    wrap_sub,
};
use std::alloc::Global;
use std::cmp::Ordering;

/// The integer of this width and number.
pub(crate) fn integer(w: Width, number: i64) -> Value
    requires { Fits w number }
    ensures { result ≡ integer w number }
{
    match w {
        Width::Small => Value::Small(number as i32),
        Width::Big => Value::Big(number),
    }
}

/// The integer of a number that fits the width; where there is none, the result did not fit.
fn told(w: Width, number: Option<i64>) -> Outcome
    requires { IfSome number (λ n. Fits w n) }
    ensures { result ≡ told w number }
{
    match number {
        Some(number) => Outcome::Gives(integer(w, number)),
        None => Outcome::Raises(Raise::Overflow),
    }
}

/// The integer of what a division gave.
fn divided(w: Width, number: Result<i64, Division>) -> Outcome
    requires { IfOk number (λ n. Fits w n) }
    ensures { result ≡ divided w number }
{
    match number {
        Ok(number) => Outcome::Gives(integer(w, number)),
        Err(Division::ZeroDivisor) => Outcome::Raises(Raise::Division),
        Err(Division::Overflow) => Outcome::Raises(Raise::Overflow),
    }
}

/// What two integers of one width give.
pub(crate) fn reckon(operation: Reckoning, w: Width, a: i64, b: i64) -> Outcome
    requires a_fits { Fits w a }
    requires b_fits { Fits w b }
    ensures { result ≡ reckon operation w a b }
{
    match operation {
        Reckoning::Add => told(w, add(w, a, b)),
        Reckoning::Subtract => told(w, sub(w, a, b)),
        Reckoning::Multiply => told(w, mul(w, a, b)),
        Reckoning::Divide => divided(w, floor_div(w, a, b)),
        Reckoning::Remainder => divided(w, floor_mod(w, a, b)),
        Reckoning::WrapAdd => Outcome::Gives(integer(w, wrap_add(w, a, b))),
        Reckoning::WrapSubtract => Outcome::Gives(integer(w, wrap_sub(w, a, b))),
        Reckoning::WrapMultiply => Outcome::Gives(integer(w, wrap_mul(w, a, b))),
    }
}

/// Whether two operands that are in this order compare so.
pub(crate) fn compare(operation: Comparison, order: Ordering) -> bool
    ensures { result ≡ compare operation order }
{
    match operation {
        Comparison::Less => order.is_lt(),
        Comparison::LessEqual => order.is_le(),
        Comparison::Greater => order.is_gt(),
        Comparison::GreaterEqual => order.is_ge(),
    }
}

/// What an integer and the first argument give.
#[tactic(auto, unfolding(crate::specs::Numbers::on_integer))]
fn reckoned(operation: Reckoning, w: Width, a: i64, arguments: &[Value]) -> Outcome
    requires { Fits w a }
    ensures { result ≡ on_integer (NumberOperation.Reckon operation) w a arguments.now }
{
    match number_operand(w, arguments) {
        Some(b) => reckon(operation, w, a, b),
        None => Outcome::Stuck,
    }
}

/// How an integer and the first argument compare.
#[tactic(auto, unfolding(crate::specs::Numbers::on_integer))]
fn compared(operation: Comparison, w: Width, a: i64, arguments: &[Value]) -> Outcome
    ensures { result ≡ on_integer (NumberOperation.Compare operation) w a arguments.now }
{
    match number_operand(w, arguments) {
        Some(b) => Outcome::Gives(Value::Flag(compare(operation, a.cmp(&b)))),
        None => Outcome::Stuck,
    }
}

/// The opposite number.
fn opposite(w: Width, a: i64) -> Outcome
    requires { Fits w a }
    ensures { result ≡ checked w (neg_ℤ a) }
{
    told(w, neg(w, a))
}

/// The integer of the width of this number, which is that of another width.
fn turned(w: Width, a: i64) -> Outcome
    ensures { result ≡ checked w a }
{
    if w.holds(a) {
        Outcome::Gives(integer(w, a))
    } else {
        Outcome::Raises(Raise::Overflow)
    }
}

/// The text of a number.
fn written(alloc: Global, a: i64) -> Result<Outcome, NoMemory>
    ensures { IfOk result (λ given. given ≡ Outcome.Gives (Value.Word (signed_decimal a))) }
{
    Ok(Outcome::Gives(Value::Word(show(alloc, &Value::Big(a))?)))
}

/// What the integer of this width and number does.
#[tactic(auto, unfolding(crate::specs::Numbers::on_integer))]
pub(crate) fn on_integer(
    alloc: Global,
    operation: NumberOperation,
    w: Width,
    a: i64,
    arguments: &[Value],
) -> Result<Outcome, NoMemory>
    requires { Fits w a }
    ensures { IfOk result (λ given. given ≡ on_integer operation w a arguments.now) }
{
    match operation {
        NumberOperation::Reckon(reckoning) => Ok(reckoned(reckoning, w, a, arguments)),
        NumberOperation::Compare(comparison) => Ok(compared(comparison, w, a, arguments)),
        NumberOperation::Negate => Ok(opposite(w, a)),
        NumberOperation::Equal => Ok(equal(&integer(w, a), arguments)),
        NumberOperation::ToInt32 => Ok(turned(Width::Small, a)),
        NumberOperation::ToInt64 => Ok(turned(Width::Big, a)),
        NumberOperation::ToText => written(alloc, a),
    }
}
