//! What the names of a scope hold at its start.
ghost use Rattle.std.specs.Prelude.{◌≡◌, ◌++◌, ◌<◌, ◌^◌, List, drop, length, map, IfOk};
ghost use Rattle.cr_meaning.specs.Locals.{at_most, begun_scope, first_or_nil};
ghost use Rattle.cr_fibers.specs.Held.{slot_of};
ghost use Rattle.cr_fibers.specs.Entering.{begun_of};
ghost use Rattle.cr_fibers.specs.Inner.{one_begun};

use crate::locals::{Begun, Slot, Variable};
use cr_base::{FiberId, NoMemory};
use cr_core::Scope;
use cr_value::Value;
use std::alloc::Global;

/// What the names of a scope hold at its start, where a fiber has so many captured locals: its parameters the values, as many as there
/// are of both, and each other name nil. A captured one is a new captured local.
pub(crate) fn begin(
    alloc: Global,
    fiber: FiberId,
    before: usize,
    scope: &Scope,
    values: &[Value],
) -> Result<Begun, NoMemory>
    requires { before < 2 ^ 63 }
    ensures { IfOk result (λ b. (variables : List Value) → length variables ≡ before → begun_scope fiber.0 scope.now values.now variables ≡ begun_of variables b) }
{
    let given = at_most(values, scope.parameters);
    let names = scope.slots.as_slice();
    let mut slots = Vec::new(alloc);
    let mut made = Vec::new(alloc);
    for name in names {
        let value = argument(alloc, given, slots.len())?;
        slots.push(first_held(fiber, before, name.captured, value, &mut made)?)?;
    }
    Ok(Begun { slots, made })
}

/// The first of these values, so many of them.
fn at_most(values: &[Value], most: usize) -> &[Value]
    ensures { result.now ≡ at_most most values.now }
{
    if values.len() <= most {
        values
    } else {
        &values[..most]
    }
}

/// The value of the parameter at a place, or nil.
fn argument(alloc: Global, given: &[Value], at: usize) -> Result<Value, NoMemory>
    ensures { IfOk result (λ value. value ≡ first_or_nil (drop at given.now)) }
{
    match given.get(at) {
        Some(value) => value.copy(alloc),
        None => Ok(Value::Nil),
    }
}

/// What a name holds at the start. A captured one is a new captured local, behind those that there are.
fn first_held(
    fiber: FiberId,
    before: usize,
    captured: bool,
    value: Value,
    made: &mut Vec<Value>,
) -> Result<Slot, NoMemory>
    requires { before < 2 ^ 63 }
    ensures { IfOk result (λ slot. (variables : List Value) → length variables ≡ before → one_begun fiber.0 captured value (variables ++ made.old.items) ≡ (slot_of slot, variables ++ made.new.items)) }
{
    if !captured {
        return Ok(Slot::Own(value));
    }
    let number = before + made.len();
    made.push(value)?;
    Ok(Slot::Shared(Variable { fiber, number }))
}
