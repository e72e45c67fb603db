//! What names hold, and what an assignment comes to.
ghost use Rattle.std.specs.Prelude.{◌≡◌, ℕ, false, List, Some, IfOk};
ghost use Rattle.std.specs.Option.{option_copied};
ghost use Rattle.cr_core.specs.declared.row.Row.{Row};
ghost use Rattle.cr_meaning.specs.World.{World};
ghost use Rattle.cr_meaning.specs.State.{State};
ghost use Rattle.cr_meaning.specs.Act.{gives, or_stuck};
ghost use Rattle.cr_meaning.specs.Calls.{receiver_here};
ghost use Rattle.cr_meaning.specs.Locals.{read, slot_of as slot_named, written};
ghost use Rattle.cr_fibers.specs.Held.{fiber_of, slot_of};
ghost use Rattle.cr_fibers.specs.declared.locals.Slot.TheVariants as slot;
ghost use Rattle.cr_steps.specs.Control.{fibers_of};
ghost use Rattle.cr_steps.specs.Step.{act_of, is_other, IsThere};

use crate::step::Step;
use cr_base::NoMemory;
use cr_core::Local;
use cr_fibers::{Fiber, Slot, Variable};
use cr_value::Value;
use std::alloc::Global;

/// A copy of the value of a name of this fiber: `None` exactly where it holds none.
pub(crate) fn read(
    alloc: Global,
    fibers: &[Fiber],
    fiber: &Fiber,
    named: Local,
) -> Result<Option<Value>, NoMemory>
    ensures { IfOk result (λ value. (P : World) (s : State) → s.fibers ≡ fibers_of P fibers.now →
        read s (slot_named (fiber_of P fiber.now) named) ≡ value) }
{
    match fiber.slot(named) {
        Some(slot) => held(alloc, fibers, slot),
        None => Ok(None),
    }
}

/// A copy of what a slot holds.
fn held(alloc: Global, fibers: &[Fiber], slot: &Slot) -> Result<Option<Value>, NoMemory>
    ensures { IfOk result (λ value. (P : World) (s : State) → s.fibers ≡ fibers_of P fibers.now →
        read s (Some (slot_of slot.now)) ≡ value) }
{
    match slot {
        Slot::Own(value) => Ok(Some(value.copy(alloc)?)),
        Slot::Shared(variable) => captured(alloc, fibers, *variable),
    }
}

/// A copy of what a captured local holds.
fn captured(alloc: Global, fibers: &[Fiber], variable: Variable) -> Result<Option<Value>, NoMemory>
    ensures { IfOk result (λ value. (P : World) (s : State) → s.fibers ≡ fibers_of P fibers.now →
        read s (Some (slot_of (slot.Shared variable))) ≡ value) }
{
    let Some(fiber) = fibers.get(variable.fiber.0 as usize) else {
        return Ok(None);
    };
    copied(alloc, fiber.variable(variable.number))
}

/// A second value, where there is one.
fn copied(alloc: Global, value: Option<&Value>) -> Result<Option<Value>, NoMemory>
    ensures { IfOk result (λ made. made ≡ option_copied value.entry) }
{
    match value {
        Some(value) => Ok(Some(value.copy(alloc)?)),
        None => Ok(None),
    }
}

/// A copy of the receiver of the call in progress.
pub(crate) fn receiver(alloc: Global, fiber: &Fiber) -> Result<Option<Value>, NoMemory>
    ensures { IfOk result (λ value. (P : World) → receiver_here (fiber_of P fiber.now) ≡ value) }
{
    copied(alloc, fiber.receiver())
}

/// What the assignment of a value to a name of this fiber comes to.
pub(crate) fn set(
    alloc: Global,
    fiber: &Fiber,
    named: Local,
    value: &Value,
) -> Result<Step, NoMemory>
    ensures step { IfOk result (λ step. (is_other step ≡ false) × ((P : World) (s : State) (i : ℕ) →
        or_stuck (λ s'. gives s' value.now) (written s i (fiber_of P fiber.now) named value.now (slot_named (fiber_of P fiber.now) named)) ≡ act_of P s i (fiber_of P fiber.now) step)) }
    ensures there { IfOk result (λ step. (rows : List Row) → IsThere rows step) }
{
    let Some(slot) = fiber.slot(named) else {
        return Ok(Step::Stuck);
    };
    let stored = value.copy(alloc)?;
    let shown = value.copy(alloc)?;
    match slot {
        Slot::Own(_) => Ok(Step::SetsOwn(named, stored, shown)),
        Slot::Shared(variable) => Ok(Step::SetsShared(*variable, stored, shown)),
    }
}
