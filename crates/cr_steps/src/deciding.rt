//! What the redex of a fiber comes to, by its form.
ghost use Rattle.std.specs.Prelude.{◌≡◌, ◌<◌, ℕ, List, [], ◌∷◌, Some, length, slice_get, if◌then◌else◌, IfOk};
ghost use Rattle.cr_core.specs.Shape as shape;
ghost use Rattle.cr_core.specs.declared.row.Row.{Row};
ghost use Rattle.cr_meaning.specs.World.{World};
ghost use Rattle.cr_meaning.specs.State.{State};
ghost use Rattle.cr_meaning.specs.Act.{Choice};
ghost use Rattle.cr_meaning.specs.Redex.{redex};
ghost use Rattle.cr_meaning.specs.Reduce.{is_truthy};
ghost use Rattle.cr_stack.specs.Layers.{ready};
ghost use Rattle.cr_stack.specs.Neat.{HasAll};
ghost use Rattle.cr_fibers.specs.Held.{fiber_of};
ghost use Rattle.cr_fibers.specs.Steps.{IsOpened};
ghost use Rattle.cr_steps.specs.Control.{fibers_of};
ghost use Rattle.cr_steps.specs.Step.{parts_of, Decides, DecidesNode, DecidesTerm, AreTerms, Fits, IsThere, IsWhole};
ghost use Rattle.cr_steps.specs.declared.step.Step.TheVariants as step;

use crate::locals::{read, receiver, set};
use crate::step::{Step, given};
use cr_base::{NoMemory, NodeId};
use cr_core::{CoreTree, Form, Row};
use cr_fibers::Fiber;
use cr_stack::{Exit, Redex};
use cr_value::Value;
use std::alloc::Global;

/// What the redex of a fiber comes to that stands at it.
pub(crate) fn decide(
    alloc: Global,
    tree: &CoreTree,
    fibers: &[Fiber],
    fiber: &Fiber,
) -> Result<Step, NoMemory>
    requires { IsOpened tree.now.rows fiber.now }
    ensures step { IfOk result (λ step. (P : World) (s : State) (i : ℕ) (choice : Choice) → P.rows ≡ tree.now.rows → s.fibers ≡ fibers_of P fibers.now → slice_get s.fibers i ≡ Some (fiber_of P fiber.now) →
        Decides P s i (fiber_of P fiber.now) choice (redex (fiber_of P fiber.now).term) step) }
    ensures fits { IfOk result (Fits tree.now.rows fiber.now.layers) }
{
    match fiber.redex() {
        Redex::Finished(_value) => Ok(Step::Nothing),
        Redex::Node(node, values) => decide_node(alloc, tree, fibers, fiber, node, values),
        Redex::Choice(_node, _clauses) => Ok(Step::Other),
        Redex::Turn => Ok(Step::Ends),
        Redex::Frame => Ok(Step::Ends),
        Redex::Body => Ok(Step::Ends),
        Redex::Sent {
            channel: _channel,
            item: _item,
        } => Ok(Step::Other),
    }
}

/// What a node comes to that has the values of all parts that are reduced before it.
fn decide_node(
    alloc: Global,
    tree: &CoreTree,
    fibers: &[Fiber],
    fiber: &Fiber,
    node: NodeId,
    values: &[Value],
) -> Result<Step, NoMemory>
    requires { HasAll tree.now.rows node values.now shape.Term }
    ensures step { IfOk result (λ step. (P : World) (s : State) (i : ℕ) (choice : Choice) → P.rows ≡ tree.now.rows → s.fibers ≡ fibers_of P fibers.now →
        DecidesTerm P s i (fiber_of P fiber.now) choice (ready P node values.now) step) }
    ensures there { IfOk result (IsThere tree.now.rows) }
{
    let rows = tree.rows();
    decide_row(alloc, fibers, fiber, &rows[node.0 as usize], values)
}

/// What a node with this row comes to.
fn decide_row(
    alloc: Global,
    fibers: &[Fiber],
    fiber: &Fiber,
    row: &Row,
    values: &[Value],
) -> Result<Step, NoMemory>
    requires { IsWhole row.now values.now }
    ensures step { IfOk result (λ step. (P : World) (s : State) (i : ℕ) (choice : Choice) → s.fibers ≡ fibers_of P fibers.now →
        DecidesNode P s i (fiber_of P fiber.now) choice row.now.form (parts_of P row.now values.now) values.now step) }
    ensures there { IfOk result (λ step. (rows : List Row) → AreTerms rows row.now → IsThere rows step) }
{
    match row.form {
        Form::Local(named) => Ok(given(read(alloc, fibers, fiber, named)?)),
        Form::Set(named) => set(alloc, fiber, named, only(values)),
        Form::KeywordSelf => Ok(given(receiver(alloc, fiber)?)),
        Form::Seq => {
            let next = part(row, 1);
            Ok(Step::Goes(next))
        }
        Form::If => {
            let first = part(row, 1);
            let second = part(row, 2);
            Ok(Step::Goes(taken(only(values), first, second)))
        }
        Form::And => {
            let right = part(row, 1);
            both(alloc, only(values), right)
        }
        Form::Or => {
            let other = part(row, 1);
            either(alloc, only(values), other)
        }
        Form::Not => Ok(Step::Gives(Value::Flag(!is_truthy(only(values))))),
        Form::While => {
            let turn = part(row, 0);
            Ok(Step::Turns(turn))
        }
        Form::Again => Ok(Step::Jumps(Exit::Again)),
        Form::Break => Ok(Step::Jumps(Exit::Break)),
        Form::Next => Ok(Step::Jumps(Exit::Next(only(values).copy(alloc)?))),
        Form::Return => Ok(Step::Jumps(Exit::Return(only(values).copy(alloc)?))),
        _ => Ok(Step::Other),
    }
}

/// The part of a row at a place.
fn part(row: &Row, at: usize) -> NodeId
    requires { at < length row.now.parts }
    ensures { slice_get row.now.parts at ≡ Some result }
{
    row.parts.as_slice()[at]
}

/// The only one of these values.
fn only(values: &[Value]) -> &Value
    requires { length values.now ≡ 1 }
    ensures { values.now ≡ result.now ∷ [] }
{
    &values[0]
}

/// Whether a value counts as true in a condition: all do but `false` and nil.
fn is_truthy(value: &Value) -> bool
    ensures { result ≡ is_truthy value.now }
{
    match value {
        Value::Nil => false,
        Value::Flag(flag) => *flag,
        Value::Small(_) | Value::Big(_) | Value::Word(_) | Value::Ref(_) => true,
    }
}

/// The node with which a conditional goes on.
fn taken(value: &Value, first: NodeId, second: NodeId) -> NodeId
    ensures { result ≡ (if is_truthy value.now then first else second) }
{
    if is_truthy(value) { first } else { second }
}

/// Goes on with a node where the value is true, and else gives a copy of the value.
fn both(alloc: Global, value: &Value, node: NodeId) -> Result<Step, NoMemory>
    ensures { IfOk result (λ made. made ≡ (if is_truthy value.now then step.Goes node else step.Gives value.now)) }
{
    if is_truthy(value) {
        Ok(Step::Goes(node))
    } else {
        Ok(Step::Gives(value.copy(alloc)?))
    }
}

/// Gives a copy of the value where that is true, and else goes on with a node.
fn either(alloc: Global, value: &Value, node: NodeId) -> Result<Step, NoMemory>
    ensures { IfOk result (λ made. made ≡ (if is_truthy value.now then step.Gives value.now else step.Goes node)) }
{
    if is_truthy(value) {
        Ok(Step::Gives(value.copy(alloc)?))
    } else {
        Ok(Step::Goes(node))
    }
}
