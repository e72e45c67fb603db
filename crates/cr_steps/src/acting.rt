//! What is done to fibers once it is known what a redex comes to.
ghost use Rattle.std.specs.Prelude.{◌≡◌, ℕ, true, false, Some, slice_get};
ghost use Rattle.cr_core.specs.declared.row.Row.{Row};
ghost use Rattle.cr_meaning.specs.World.{World};
ghost use Rattle.cr_meaning.specs.State.{State, set_fiber};
ghost use Rattle.cr_meaning.specs.Term.{Turn, Val, tree};
ghost use Rattle.cr_meaning.specs.Reduce.{reduced_by};
ghost use Rattle.cr_stack.specs.Neat.{IsNeat, IsTerm};
ghost use Rattle.cr_stack.specs.Steps.{Ends, IsReduced};
ghost use Rattle.cr_fibers.specs.Held.{Held, fiber_of};
ghost use Rattle.cr_fibers.specs.Steps.{Closed, IsOpened};
ghost use Rattle.cr_fibers.specs.Steps as fibers_do;
ghost use Rattle.cr_steps.specs.Control.{fibers_of, is_went, reduced_to, with_fibers, AreNeat};
ghost use Rattle.cr_steps.specs.Control as told;
ghost use Rattle.cr_steps.specs.declared.control.Control.TheVariants as control;
ghost use Rattle.cr_steps.specs.Step.{act_of, alone, captured_in, gives_value, is_other, told_of, with_own, CanAct, Fits};

use crate::control::Control;
use crate::step::Step;
use cr_base::NodeId;
use cr_core::{Local, Row};
use cr_fibers::{Fiber, Variable};
use cr_stack::Jumped;
use cr_value::Value;

/// Does to the fiber at a place what its redex comes to. Takes no memory.
pub(crate) fn act(rows: &[Row], fibers: &mut Vec<Fiber>, at: usize, step: Step) -> Control
    requires can { CanAct rows.now fibers.old.items at step }
    requires neat { AreNeat rows.now fibers.old.items }
    ensures step { (P : World) (s : State) (f : Held) → P.rows ≡ rows.now → s.fibers ≡ fibers_of P fibers.old.items → slice_get fibers.old.items at ≡ Some f →
        reduced_by s at (fiber_of P f) (act_of P s at (fiber_of P f) step) ≡ reduced_to result (with_fibers s (fibers_of P fibers.new.items)) }
    ensures same { is_went result ≡ false → (P : World) → P.rows ≡ rows.now → fibers_of P fibers.new.items ≡ fibers_of P fibers.old.items }
    ensures other { told.is_other result ≡ is_other step }
    ensures neat { AreNeat rows.now fibers.new.items }
{
    match step {
        Step::SetsShared(variable, value, shown) => {
            set_captured(fibers, variable, value);
            act_at(rows, fibers, at, Step::Gives(shown))
        }
        alone => act_at(rows, fibers, at, alone),
    }
}

/// Does to the fiber at a place what its redex comes to, but for what other fibers hold.
fn act_at(rows: &[Row], fibers: &mut Vec<Fiber>, at: usize, step: Step) -> Control
    requires can { CanAct rows.now fibers.old.items at step }
    requires neat { AreNeat rows.now fibers.old.items }
    ensures step { (P : World) (s : State) (f : Held) → P.rows ≡ rows.now → s.fibers ≡ fibers_of P fibers.old.items → slice_get fibers.old.items at ≡ Some f →
        reduced_by s at (fiber_of P f) (act_of P s at (fiber_of P f) (alone step)) ≡ reduced_to result (with_fibers s (fibers_of P fibers.new.items)) }
    ensures same { is_went result ≡ false → (P : World) → P.rows ≡ rows.now → fibers_of P fibers.new.items ≡ fibers_of P fibers.old.items }
    ensures other { told.is_other result ≡ is_other step }
    ensures gives { gives_value step ≡ true → result ≡ control.Went }
    ensures neat { AreNeat rows.now fibers.new.items }
{
    let fiber = &mut fibers[at];
    act_alone(rows, fiber, step)
}

/// Does to a fiber what its redex comes to, but for what other fibers hold.
fn act_alone(rows: &[Row], fiber: &mut Fiber, step: Step) -> Control
    requires opened { IsOpened rows.now fiber.old }
    requires fits { Fits rows.now fiber.old.layers step }
    ensures step { (P : World) (s : State) (i : ℕ) → P.rows ≡ rows.now → slice_get s.fibers i ≡ Some (fiber_of P fiber.old) →
        reduced_by s i (fiber_of P fiber.old) (act_of P s i (fiber_of P fiber.old) (alone step)) ≡ reduced_to result (set_fiber s i (fiber_of P fiber.new)) }
    ensures same { is_went result ≡ false → (P : World) → P.rows ≡ rows.now → fiber_of P fiber.new ≡ fiber_of P fiber.old }
    ensures other { told.is_other result ≡ is_other step }
    ensures gives { gives_value step ≡ true → result ≡ control.Went }
    ensures neat { IsNeat rows.now fiber.new.layers }
{
    match step {
        Step::Gives(value) => give(rows, fiber, value),
        Step::SetsShared(_variable, value, shown) => {
            drop(value);
            give(rows, fiber, shown)
        }
        Step::SetsOwn(named, value, shown) => set_own(rows, fiber, named, value, shown),
        Step::Goes(node) => go(rows, fiber, node),
        Step::Turns(node) => turn(rows, fiber, node),
        Step::Jumps(exit) => told(fiber.jump(rows, exit)),
        Step::Ends => end(rows, fiber),
        Step::Stuck | Step::Nothing => Control::Stuck,
        Step::Other => Control::Other,
    }
}

/// A value takes the place of the redex.
fn give(rows: &[Row], fiber: &mut Fiber, value: Value) -> Control
    requires opened { IsOpened rows.now fiber.old }
    requires reduced { IsReduced fiber.old.layers.focus }
    ensures told { result ≡ control.Went }
    ensures step { (P : World) → P.rows ≡ rows.now → fiber_of P fiber.new ≡ fibers_do.reduced_to (fiber_of P fiber.old) (Val value) }
    ensures neat { IsNeat rows.now fiber.new.layers }
{
    fiber.put_value(rows, value);
    Control::Went
}

/// A name gets a value of its own, and another takes the place of the redex.
fn set_own(rows: &[Row], fiber: &mut Fiber, named: Local, value: Value, shown: Value) -> Control
    requires opened { IsOpened rows.now fiber.old }
    requires reduced { IsReduced fiber.old.layers.focus }
    ensures told { result ≡ control.Went }
    ensures step { (P : World) → P.rows ≡ rows.now → fiber_of P fiber.new ≡ fibers_do.reduced_to (with_own (fiber_of P fiber.old) named value) (Val shown) }
    ensures neat { IsNeat rows.now fiber.new.layers }
{
    fiber.set_slot(named, value);
    fiber.put_value(rows, shown);
    Control::Went
}

/// The core tree of a node takes the place of the redex.
fn go(rows: &[Row], fiber: &mut Fiber, node: NodeId) -> Control
    requires opened { IsOpened rows.now fiber.old }
    requires fits { IsReduced fiber.old.layers.focus × IsTerm rows.now node }
    ensures told { result ≡ control.Went }
    ensures step { (P : World) → P.rows ≡ rows.now → fiber_of P fiber.new ≡ fibers_do.reduced_to (fiber_of P fiber.old) (tree P node) }
    ensures neat { IsNeat rows.now fiber.new.layers }
{
    fiber.put_node(rows, node);
    Control::Went
}

/// The first turn of a loop takes the place of the redex.
fn turn(rows: &[Row], fiber: &mut Fiber, node: NodeId) -> Control
    requires opened { IsOpened rows.now fiber.old }
    requires fits { IsReduced fiber.old.layers.focus × IsTerm rows.now node }
    ensures told { result ≡ control.Went }
    ensures step { (P : World) → P.rows ≡ rows.now → fiber_of P fiber.new ≡ fibers_do.reduced_to (fiber_of P fiber.old) (Turn (tree P node) (tree P node)) }
    ensures neat { IsNeat rows.now fiber.new.layers }
{
    fiber.put_turn(rows, node);
    Control::Went
}

/// What has ended gives its value.
fn end(rows: &[Row], fiber: &mut Fiber) -> Control
    requires opened { IsOpened rows.now fiber.old }
    requires ends { Ends fiber.old.layers }
    ensures told { result ≡ control.Went }
    ensures step { (P : World) → P.rows ≡ rows.now → Closed P fiber.old fiber.new }
    ensures neat { IsNeat rows.now fiber.new.layers }
{
    fiber.close(rows);
    Control::Went
}

/// What is told of a jump.
fn told(jumped: Jumped) -> Control
    ensures { result ≡ told_of jumped }
{
    match jumped {
        Jumped::Ends { .. } => Control::Went,
        Jumped::Outwards | Jumped::Barred => Control::Stuck,
    }
}

/// Gives a captured local a value, where it is there.
fn set_captured(fibers: &mut Vec<Fiber>, variable: Variable, value: Value)
    ensures { fibers.new.items ≡ captured_in fibers.old.items variable value }
{
    let place = variable.fiber.0 as usize;
    if place < fibers.len() {
        fibers[place].set_variable(variable.number, value);
    }
}
