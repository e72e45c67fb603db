//! The way to the redex: into a node, to its next part, and from its last one to the node itself.
ghost use Rattle.std.specs.Prelude.{◌≡◌, ◌<◌, ◌+◌, [], ◌∷◌, ◌++◌, length, slice_get, IfOk, OnOk, OnErr, vec_len, vec_capacity};
ghost use Rattle.cr_core.specs.Shape as shape;
ghost use Rattle.cr_core.specs.Tree.{IsCore};
ghost use Rattle.cr_meaning.specs.World.{World};
ghost use Rattle.cr_meaning.specs.Term as t;
ghost use Rattle.cr_stack.specs.declared.around.Around.TheVariants as a;
ghost use Rattle.cr_stack.specs.declared.around.Now.TheVariants as now;
ghost use Rattle.cr_stack.specs.Layers.{IsWorldOf, ready, choice, plug, now_of, frame_count};
ghost use Rattle.cr_stack.specs.Neat.{IsTerm, IsNeatAround, IsNeatNow, AreNeat, Chooses};
ghost use Rattle.cr_stack.specs.Steps.{IsOpenAt};
ghost use Rattle.cr_stack.specs.Way.{Leads, Underway, ChoiceUnderway, StepsTo, choosing_ready, weight, left_ready, left_choice, left_clause};

use crate::around::{Around, Now};
use crate::forms::{is_choice, last_reduced, literal, skipped};
use crate::lists::{push_within, pushed};
use cr_base::{NoMemory, NodeId};
use cr_core::{CoreTree, Listed};
use cr_value::Value;
use std::alloc::Global;

/// Goes on to the redex. The term stays as it is, also where memory runs out.
pub(crate) fn go(
    alloc: Global,
    tree: &CoreTree,
    around: &mut Vec<Around>,
    focus: &mut Now,
) -> Result<(), NoMemory>
    requires core { IsCore tree.now }
    requires neat { AreNeat tree.now.rows around.old.items }
    requires focus { IsNeatNow tree.now.rows focus.old }
    ensures same { (P : World) → IsWorldOf P tree.now → plug P around.new.items (now_of P focus.new) ≡ plug P around.old.items (now_of P focus.old) }
    ensures neat { AreNeat tree.now.rows around.new.items }
    ensures focus { IsNeatNow tree.now.rows focus.new }
    ensures count { frame_count around.new.items ≡ frame_count around.old.items }
    ensures ok { OnOk result (IsOpenAt around.new.items focus.new) }
{
    'steps: loop {
        let from = std::mem::replace(
            focus,
            Now::Sent {
                channel: 0,
                item: 0,
            },
        );
        match advance(alloc, tree, around, from) {
            Step::To(to) => *focus = to,
            Step::Open(same) => {
                *focus = same;
                return Ok(());
            }
            Step::Fails(same) => {
                *focus = same;
                return Err(NoMemory);
            }
        }
    }
}

/// A step of the way.
#[derive(Drop)]
pub(crate) enum Step {
    /// This part is next.
    To(Now),
    /// There is none, and this is the part.
    Open(Now),
    /// Memory ran out, and this is the part.
    Fails(Now),
}

/// Makes one step.
fn advance(alloc: Global, tree: &CoreTree, around: &mut Vec<Around>, from: Now) -> Step
    requires core { IsCore tree.now }
    requires neat { AreNeat tree.now.rows around.old.items }
    requires focus { IsNeatNow tree.now.rows from }
    ensures { StepsTo tree.now around.old.items from around.new.items result }
{
    match from {
        Now::Node(node) => match enter(alloc, tree, around, node) {
            Ok(to) => Step::To(to),
            Err(_) => Step::Fails(Now::Node(node)),
        },
        Now::Value(value) => proceed(alloc, tree, around, value),
        Now::Ready(node, values) => Step::Open(Now::Ready(node, values)),
        Now::Choice(node, clauses) => Step::Open(Now::Choice(node, clauses)),
        Now::Sent { channel, item } => Step::Open(Now::Sent { channel, item }),
    }
}

/// Goes into a node.
fn enter(
    alloc: Global,
    tree: &CoreTree,
    around: &mut Vec<Around>,
    node: NodeId,
) -> Result<Now, NoMemory>
    requires core { IsCore tree.now }
    requires term { IsTerm tree.now.rows node }
    ensures ok { IfOk result (λ to. Leads tree.now around.old.items (λ P. t.tree P node) (weight tree.now.rows node) around.new.items to) }
    ensures err { OnErr result (around.new.items ≡ around.old.items) }
{
    around.reserve(1)?;
    let form = tree.row(node).form;
    if let Some(value) = literal(alloc, tree, form)? {
        return Ok(Now::Value(value));
    }
    if is_choice(form) {
        return Ok(resume_choice(alloc, tree, around, node, Listed::new(alloc)));
    }
    Ok(resume(tree, around, node, Listed::new(alloc)))
}

/// Takes a value to the node or the choice around it, if there is one.
fn proceed(alloc: Global, tree: &CoreTree, around: &mut Vec<Around>, value: Value) -> Step
    requires core { IsCore tree.now }
    requires neat { AreNeat tree.now.rows around.old.items }
    ensures { StepsTo tree.now around.old.items (now.Value value) around.new.items result }
{
    let Some(layer) = around.pop() else {
        return Step::Open(Now::Value(value));
    };
    match layer {
        Around::Part(node, values) => take(tree, around, node, values, value),
        Around::Choice {
            node,
            clauses,
            values,
        } => take_in_choice(alloc, tree, around, node, clauses, values, value),
        other => {
            push_within(around, other);
            Step::Open(Now::Value(value))
        }
    }
}

/// A value more for a node.
fn take(
    tree: &CoreTree,
    around: &mut Vec<Around>,
    node: NodeId,
    values: Listed<Value>,
    value: Value,
) -> Step
    requires core { IsCore tree.now }
    requires lacks { IsNeatAround tree.now.rows (a.Part node values) }
    requires room { vec_len around.old < vec_capacity around.old }
    ensures { StepsTo tree.now (around.old.items ++ a.Part node values ∷ []) (now.Value value) around.new.items result }
{
    match pushed(values, value) {
        Ok(values) => Step::To(resume(tree, around, node, values)),
        Err((values, value)) => {
            push_within(around, Around::Part(node, values));
            Step::Fails(Now::Value(value))
        }
    }
}

/// Goes on with a node whose first parts have these values: to its next part, or to the node itself.
fn resume(tree: &CoreTree, around: &mut Vec<Around>, node: NodeId, values: Listed<Value>) -> Now
    requires core { IsCore tree.now }
    requires underway { Underway tree.now.rows node values shape.Term }
    requires room { vec_len around.old < vec_capacity around.old }
    ensures { Leads tree.now around.old.items (λ P. ready P node values) (left_ready tree.now.rows values (slice_get tree.now.rows node.0)) around.new.items result }
{
    let row = tree.row(node);
    let parts = row.parts.as_slice();
    let place = skipped(row.form) + values.as_slice().len();
    if place < last_reduced(row.form, parts.len()) {
        let part = parts[place];
        push_within(around, Around::Part(node, values));
        return Now::Node(part);
    }
    Now::Ready(node, values)
}

/// A value more for the clause in progress of a choice.
fn take_in_choice(
    alloc: Global,
    tree: &CoreTree,
    around: &mut Vec<Around>,
    node: NodeId,
    clauses: Listed<Listed<Value>>,
    values: Listed<Value>,
    value: Value,
) -> Step
    requires core { IsCore tree.now }
    requires lacks { IsNeatAround tree.now.rows (a.Choice node clauses values) }
    requires room { vec_len around.old < vec_capacity around.old }
    ensures { StepsTo tree.now (around.old.items ++ a.Choice node clauses values ∷ []) (now.Value value) around.new.items result }
{
    let mut done = clauses.into_vec();
    let room = done.reserve(1);
    if room.is_err() {
        push_within(
            around,
            Around::Choice {
                node,
                clauses: Listed::of(done),
                values,
            },
        );
        return Step::Fails(Now::Value(value));
    }
    match pushed(values, value) {
        Ok(values) => Step::To(resume_clause(alloc, tree, around, node, done, values)),
        Err((values, value)) => {
            push_within(
                around,
                Around::Choice {
                    node,
                    clauses: Listed::of(done),
                    values,
                },
            );
            Step::Fails(Now::Value(value))
        }
    }
}

/// Goes on with a choice whose next clause has these values: to its next part, or to the next clause.
fn resume_clause(
    alloc: Global,
    tree: &CoreTree,
    around: &mut Vec<Around>,
    node: NodeId,
    mut done: Vec<Listed<Value>>,
    values: Listed<Value>,
) -> Now
    requires core { IsCore tree.now }
    requires underway { ChoiceUnderway tree.now.rows node done.items values }
    requires room { vec_len around.old < vec_capacity around.old }
    requires more { vec_len done < vec_capacity done }
    ensures { Leads tree.now around.old.items (λ P. choosing_ready P node done.items values) (left_clause tree.now.rows done.items values (slice_get tree.now.rows node.0)) around.new.items result }
{
    let clause = tree.row(node).parts.as_slice()[done.len()];
    let row = tree.row(clause);
    let parts = row.parts.as_slice();
    let reached = skipped(row.form) + values.as_slice().len();
    if reached < last_reduced(row.form, parts.len()) {
        let part = parts[reached];
        push_within(
            around,
            Around::Choice {
                node,
                clauses: Listed::of(done),
                values,
            },
        );
        return Now::Node(part);
    }
    push_within(&mut done, values);
    resume_choice(alloc, tree, around, node, Listed::of(done))
}

/// Goes on with a choice whose first clauses have all their values: to the next clause, or to the choice itself.
fn resume_choice(
    alloc: Global,
    tree: &CoreTree,
    around: &mut Vec<Around>,
    node: NodeId,
    clauses: Listed<Listed<Value>>,
) -> Now
    requires core { IsCore tree.now }
    requires chooses { Chooses tree.now.rows node clauses }
    requires room { vec_len around.old < vec_capacity around.old }
    ensures { Leads tree.now around.old.items (λ P. choice P node clauses) (left_choice tree.now.rows clauses (slice_get tree.now.rows node.0)) around.new.items result }
{
    let row = tree.row(node);
    let parts = row.parts.as_slice();
    let place = clauses.as_slice().len();
    if place < last_reduced(row.form, parts.len()) {
        let clause = tree.row(parts[place]);
        let part = clause.parts.as_slice()[skipped(clause.form)];
        push_within(
            around,
            Around::Choice {
                node,
                clauses,
                values: Listed::new(alloc),
            },
        );
        return Now::Node(part);
    }
    Now::Choice(node, clauses)
}
