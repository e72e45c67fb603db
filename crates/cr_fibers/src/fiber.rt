//! A fiber, and the calls by which it is made, read and changed. Each does what the meaning says of one fiber.
ghost use Rattle.std.specs.Prelude.{◌≡◌, ◌<◌, ◌-◌, ◌↔◌, List, [], Some, length, slice_get, slice_set, IfOk, IsTrue, OnOk, OnErr};
ghost use Rattle.std.specs.Option.{option_copied, option_map};
ghost use Rattle.cr_core.specs.declared.row.Row.{Row};
ghost use Rattle.cr_meaning.specs.World.{World};
ghost use Rattle.cr_meaning.specs.Term.{Term, Val, Turn, Sent, tree};
ghost use Rattle.cr_meaning.specs.State.{Locals as Around, status_with};
ghost use Rattle.cr_meaning.specs.Redex.{frames};
ghost use Rattle.cr_meaning.specs.Locals.{begun_scope, outwards, slot_of as slot_named, with_slot};
ghost use Rattle.cr_meaning.specs.State as m;
ghost use Rattle.cr_meaning.specs.Calls.{given_in, locals_here, method_in, receiver_here};
ghost use Rattle.cr_meaning.specs.Fibers.{new_fiber};
ghost use Rattle.cr_meaning.specs.Run.{main_fiber};
ghost use Rattle.cr_core.specs.Shape as shape;
ghost use Rattle.cr_stack.specs.Layers.{IsWorldOf, partly, ready, term};
ghost use Rattle.cr_stack.specs.Neat.{HasAll, IsNeat, IsTerm, Lacks};
ghost use Rattle.cr_stack.specs.Shown.{IsShown, IsWhole, StandsThere};
ghost use Rattle.cr_stack.specs.Steps.{Ends, IsOpen, IsReduced};
ghost use Rattle.cr_fibers.specs.Held.{fiber_of, given_of, locals_of, slot_of, status_of, told, with_layers, with_locals, with_status, with_variables};
ghost use Rattle.cr_fibers.specs.Steps.{Becomes, Closed, IsOpened, JumpsTo};
ghost use Rattle.cr_fibers.specs.Entering.{begun_of, in_block, in_call};
ghost use Rattle.cr_fibers.specs.Inner.{has_left, leaves_locals, status_after};

use crate::first::begin;
use crate::locals::{Begun, Call, Given, Locals, Slot};
use crate::places::{
    around, enter, first_locals, in_block, leave, outwards, slot_at, write, write_own,
};
use crate::progress::{FiberLook, Progress, Status, has_ended, is_literal_at};
use cr_base::{ContextId, FiberId, MethodId, NoMemory, NodeId};
use cr_core::{CoreTree, Listed, Local, Row, Scope};
use cr_stack::{Exit, Jumped, Redex, Stack};
use cr_value::Value;
use std::alloc::Global;
use std::marker::Model;

/// A fiber of a run. Contracts see its stack, its locals and its captured locals, its context, and the status that the meaning knows.
#[derive(Drop)]
pub struct Fiber {
    stack: Stack,
    // Those of the calls and blocks in progress, the innermost last.
    locals: Vec<Locals>,
    // The captured locals that it made.
    variables: Vec<Value>,
    context: ContextId,
    progress: Progress,
}

impl Model for Fiber {
    ghost use Rattle.std.specs.Prelude.{map};
    ghost use Rattle.cr_fibers.specs.Held.{Held, locals_of, status_of};

    ghost Value = { Held };

    ghost view = { λ f. record { layers = f.stack; locals = map locals_of f.locals.items; variables = f.variables.items; context = f.context.0; status = status_of f.progress } };
}

// ---- making

impl Fiber {
    /// Main, with the scope of the top level. It is current, and done where it has nothing to reduce.
    pub fn main(alloc: Global, rows: &[Row], scope: &Scope) -> Result<Fiber, NoMemory>
        ensures fiber { IfOk result (λ f. (P : World) → P.rows ≡ rows.now → fiber_of P f ≡ main_fiber P (tree P scope.now.body) (begun_scope 0 scope.now [] [])) }
        ensures neat { IfOk result (λ f. (of : List Row) → IsTerm of scope.now.body → IsNeat of f.layers) }
    {
        let Begun { slots, made } = begin(alloc, FiberId(0), 0, scope, &[])?;
        let mut locals = Vec::new(alloc);
        locals.push(Locals {
            home: None,
            slots,
            receiver: None,
            method: None,
            given: None,
        })?;
        Ok(Fiber {
            stack: Stack::new(alloc, scope.body),
            locals,
            variables: made,
            context: ContextId(0),
            progress: progress_at(rows, scope.body),
        })
    }
}

/// How far a current fiber is that begins with a node.
fn progress_at(rows: &[Row], at: NodeId) -> Progress
    ensures { (P : World) → P.rows ≡ rows.now → status_of result ≡ status_with (tree P at) m.Current }
{
    if is_literal_at(rows, at) {
        Progress::Finished
    } else {
        Progress::Current
    }
}

// ---- reading

impl Fiber {
    /// Its context and its status. Takes no memory.
    pub fn look(&self) -> FiberLook
        ensures context { result.context.0 ≡ self.now.context }
        ensures status { result.status ≡ told self.now.status }
    {
        let status = match self.progress {
            Progress::Ready => Status::Ready,
            Progress::Current => Status::Current,
            Progress::Waiting => Status::Waiting,
            Progress::Finished | Progress::Raised => Status::Done,
        };
        FiberLook {
            context: self.context,
            status,
        }
    }

    /// How far it is. Takes no memory.
    pub fn progress(&self) -> Progress
        ensures { status_of result ≡ self.now.status }
    {
        self.progress
    }

    /// How many calls are in progress. Takes no memory.
    pub fn frames(&self) -> usize
        ensures { (P : World) → IsNeat P.rows self.now.layers → result ≡ frames (fiber_of P self.now).term }
    {
        self.stack.frames()
    }

    /// The place of the innermost locals. Takes no memory.
    pub fn innermost(&self) -> usize
        ensures { result ≡ length self.now.locals - 1 }
    {
        self.locals.len().saturating_sub(1)
    }

    /// The innermost locals.
    fn here(&self) -> Option<&Locals>
        ensures { (P : World) → option_map locals_of (option_copied result) ≡ locals_here (fiber_of P self.now) }
    {
        self.locals.get(self.innermost())
    }

    /// The receiver of the call in progress. Takes no memory.
    pub fn receiver(&self) -> Option<&Value>
        ensures { (P : World) → option_copied result ≡ receiver_here (fiber_of P self.now) }
    {
        match self.here() {
            Some(locals) => locals.receiver.as_ref(),
            None => None,
        }
    }

    /// The method of the call in progress. Takes no memory.
    pub fn method(&self) -> Option<MethodId>
        ensures { (P : World) → result ≡ method_in (locals_here (fiber_of P self.now)) }
    {
        match self.here() {
            Some(locals) => locals.method,
            None => None,
        }
    }

    /// The block that the call in progress was given. Takes no memory.
    pub fn given(&self) -> Option<Given>
        ensures { (P : World) → option_map given_of result ≡ given_in (locals_here (fiber_of P self.now)) }
    {
        match self.here() {
            Some(locals) => locals.given,
            None => None,
        }
    }

    /// Whether locals lie at a place. Takes no memory.
    pub fn has_locals(&self, at: usize) -> bool
        ensures { IsTrue result ↔ (at < length self.now.locals) }
    {
        at < self.locals.len()
    }

    /// The place of the locals in which a name has its slot.
    fn place(&self, named: Local) -> usize
        ensures { result ≡ outwards self.now.locals named.up (length self.now.locals - 1) }
    {
        outwards(self.locals.as_slice(), named.up, self.innermost())
    }

    /// What a name holds: `None` exactly where no slot is there. Takes no memory.
    pub fn slot(&self, named: Local) -> Option<&Slot>
        ensures { (P : World) → option_map slot_of (option_copied result) ≡ slot_named (fiber_of P self.now) named }
    {
        slot_at(self.locals.as_slice(), self.place(named), named.slot)
    }

    /// A captured local that it made, by its number: `None` exactly where it made none. Takes no memory.
    pub fn variable(&self, number: usize) -> Option<&Value>
        ensures { option_copied result ≡ slice_get self.now.variables number }
    {
        self.variables.get(number)
    }
}

// ---- writing

impl Fiber {
    /// Makes it as far as this. Takes no memory.
    pub fn set_progress(&mut self, progress: Progress)
        ensures { self.new ≡ with_status self.old (status_of progress) }
    {
        self.progress = progress;
    }

    /// Gives a name a value of its own, where its slot is there. Takes no memory.
    pub fn set_slot(&mut self, named: Local, value: Value)
        ensures { let place = outwards self.old.locals named.up (length self.old.locals - 1) in self.new ≡ with_locals self.old (with_slot (slice_get self.old.locals place) named.slot (m.Own value) self.old.locals place) }
    {
        let place = self.place(named);
        write_own(&mut self.locals, place, named.slot, value);
    }

    /// Gives a captured local that it made a value, where it is there. Takes no memory.
    pub fn set_variable(&mut self, number: usize, value: Value)
        ensures { self.new ≡ with_variables self.old (slice_set self.old.variables number value) }
    {
        write(&mut self.variables, number, value);
    }
}

// ---- one reduction

impl Fiber {
    /// Goes on to the redex, so that no call below takes memory for the term. Nothing that the meaning knows changes, also where memory
    /// runs out. A text of the tree that is longer than any may be is answered with want of memory.
    pub fn open(&mut self, alloc: Global, tree: &CoreTree) -> Result<(), NoMemory>
        requires { IsNeat tree.now.rows self.old.layers }
        ensures same { (P : World) → IsWorldOf P tree.now → fiber_of P self.new ≡ fiber_of P self.old }
        ensures rest { self.new ≡ with_layers self.old self.new.layers }
        ensures neat { IsNeat tree.now.rows self.new.layers }
        ensures ok { OnOk result (IsOpened tree.now.rows self.new) }
    {
        self.stack.open(alloc, tree)
    }

    /// What is reduced next. Takes no memory.
    pub fn redex(&self) -> Redex<'_>
        requires { IsOpen self.now.layers }
        ensures shown { (P : World) → IsNeat P.rows self.now.layers → IsShown P result (fiber_of P self.now).term }
        ensures place { StandsThere result self.now.layers }
        ensures whole { (rows : List Row) → IsNeat rows self.now.layers → IsWhole rows result }
    {
        self.stack.redex()
    }

    /// A value takes the place of the redex. Takes no memory.
    pub fn put_value(&mut self, rows: &[Row], value: Value)
        requires opened { IsOpened rows.now self.old }
        requires reduced { IsReduced self.old.layers.focus }
        ensures step { Becomes rows.now self.old (λ P. Val value) self.new }
        ensures neat { IsNeat rows.now self.new.layers }
    {
        self.stack.put_value(value);
        settle(rows, &self.stack, &mut self.progress);
    }

    /// The core tree of a node takes the place of the redex. Takes no memory.
    pub fn put_node(&mut self, rows: &[Row], node: NodeId)
        requires opened { IsOpened rows.now self.old }
        requires reduced { IsReduced self.old.layers.focus }
        requires term { IsTerm rows.now node }
        ensures step { Becomes rows.now self.old (λ P. tree P node) self.new }
        ensures neat { IsNeat rows.now self.new.layers }
    {
        self.stack.put_node(node);
        settle(rows, &self.stack, &mut self.progress);
    }

    /// The first turn of a loop takes the place of the redex. Takes no memory.
    pub fn put_turn(&mut self, rows: &[Row], node: NodeId)
        requires opened { IsOpened rows.now self.old }
        requires reduced { IsReduced self.old.layers.focus }
        requires term { IsTerm rows.now node }
        ensures step { Becomes rows.now self.old (λ P. Turn (tree P node) (tree P node)) self.new }
        ensures neat { IsNeat rows.now self.new.layers }
    {
        self.stack.put_turn(node);
        settle(rows, &self.stack, &mut self.progress);
    }

    /// A send whose item stands in a channel takes the place of the redex. Takes no memory.
    pub fn put_sent(&mut self, rows: &[Row], channel: u32, item: u32)
        requires opened { IsOpened rows.now self.old }
        requires reduced { IsReduced self.old.layers.focus }
        ensures step { Becomes rows.now self.old (λ P. Sent channel item) self.new }
        ensures neat { IsNeat rows.now self.new.layers }
    {
        self.stack.put_sent(channel, item);
        settle(rows, &self.stack, &mut self.progress);
    }

    /// A node takes the place of the redex. Of its parts the first, a node too, has these values of all parts that are reduced before it.
    /// Takes no memory.
    pub fn put_first(
        &mut self,
        alloc: Global,
        rows: &[Row],
        node: NodeId,
        first: NodeId,
        values: Listed<Value>,
    )
        requires opened { IsOpened rows.now self.old }
        requires reduced { IsReduced self.old.layers.focus }
        requires lacks { Lacks rows.now node [] shape.Term }
        requires all { HasAll rows.now first values shape.Term }
        ensures step { Becomes rows.now self.old (λ P. partly P node [] (ready P first values)) self.new }
        ensures neat { IsNeat rows.now self.new.layers }
    {
        self.stack.put_first(alloc, node, first, values);
        settle(rows, &self.stack, &mut self.progress);
    }

    /// Ends the loop, call or block that is the redex: what it gives takes its place. A call and a block leave their locals. Takes no
    /// memory.
    pub fn close(&mut self, rows: &[Row])
        requires opened { IsOpened rows.now self.old }
        requires ends { Ends self.old.layers }
        ensures step { (P : World) → P.rows ≡ rows.now → Closed P self.old self.new }
        ensures neat { IsNeat rows.now self.new.layers }
    {
        let leaves = leaves_locals(self.stack.redex());
        self.stack.close();
        leave(&mut self.locals, leaves);
        settle(rows, &self.stack, &mut self.progress);
    }

    /// Makes the jump that is the redex, if it ends anywhere. Takes no memory.
    pub fn jump(&mut self, rows: &[Row], exit: Exit) -> Jumped
        requires opened { IsOpened rows.now self.old }
        requires reduced { IsReduced self.old.layers.focus }
        ensures step { (P : World) → P.rows ≡ rows.now → JumpsTo P exit self.old result self.new }
        ensures neat { IsNeat rows.now self.new.layers }
    {
        let told = self.stack.jump(exit);
        leave(&mut self.locals, has_left(told));
        settle_jump(rows, &self.stack, told, &mut self.progress);
        told
    }
}

/// Whether a jump has left locals.
fn has_left(told: Jumped) -> bool
    ensures { result ≡ has_left told }
{
    match told {
        Jumped::Ends { leaves_locals } => leaves_locals,
        Jumped::Outwards | Jumped::Barred => false,
    }
}

/// A fiber is at its end as soon as its term is a value, also where a jump gave it.
fn settle_jump(rows: &[Row], stack: &Stack, told: Jumped, progress: &mut Progress)
    requires { IsNeat rows.now stack.now }
    ensures { (P : World) → P.rows ≡ rows.now → status_of progress.new ≡ status_after told (term P stack.now) (status_of progress.old) }
{
    match told {
        Jumped::Ends { .. } => settle(rows, stack, progress),
        Jumped::Outwards | Jumped::Barred => {}
    }
}

/// Whether what is shown ends with its locals: a call, and a block.
fn leaves_locals(shown: Redex<'_>) -> bool
    ensures { result ≡ leaves_locals shown.entry }
{
    match shown {
        Redex::Frame => true,
        Redex::Body => true,
        Redex::Turn => false,
        Redex::Finished(_value) => false,
        Redex::Node(_node, _values) => false,
        Redex::Choice(_node, _clauses) => false,
        Redex::Sent {
            channel: _channel,
            item: _item,
        } => false,
    }
}

/// A fiber is at its end as soon as its term is a value.
fn settle(rows: &[Row], stack: &Stack, progress: &mut Progress)
    requires { IsNeat rows.now stack.now }
    ensures { (P : World) → P.rows ≡ rows.now → status_of progress.new ≡ status_with (term P stack.now) (status_of progress.old) }
{
    if has_ended(rows, stack) {
        *progress = Progress::Finished;
    }
}

// ---- entering calls and blocks

impl Fiber {
    /// What the names of a scope hold at its start in this fiber, which has this number: its parameters the values, as many as there are
    /// of both, and each other name nil.
    pub fn begin(
        &self,
        alloc: Global,
        number: FiberId,
        scope: &Scope,
        values: &[Value],
    ) -> Result<Begun, NoMemory>
        ensures { IfOk result (λ b. begun_scope number.0 scope.now values.now self.now.variables ≡ begun_of self.now.variables b) }
    {
        begin(alloc, number, self.variables.len(), scope, values)
    }

    /// A call takes the place of the redex: its body is the core tree of a node, and its locals begin so. After want of memory the fiber is
    /// as it was.
    pub fn enter_call(
        &mut self,
        rows: &[Row],
        call: Call,
        begun: Begun,
        body: NodeId,
    ) -> Result<(), NoMemory>
        requires opened { IsOpened rows.now self.old }
        requires reduced { IsReduced self.old.layers.focus }
        requires term { IsTerm rows.now body }
        ensures ok { OnOk result ((P : World) → P.rows ≡ rows.now → fiber_of P self.new ≡ in_call P (fiber_of P self.old) call begun body) }
        ensures neat { OnOk result (IsNeat rows.now self.new.layers) }
        ensures err { OnErr result (self.new ≡ self.old) }
    {
        let Begun { slots, made } = begun;
        enter(
            &mut self.locals,
            &mut self.variables,
            Locals {
                home: None,
                slots,
                receiver: call.receiver,
                method: Some(call.method),
                given: call.given,
            },
            made,
        )?;
        self.stack.put_call(call.gives, body);
        settle(rows, &self.stack, &mut self.progress);
        Ok(())
    }

    /// A block takes the place of the redex, which was written among the locals at a place: its body is the core tree of a node, and its
    /// locals begin so. After want of memory the fiber is as it was.
    pub fn enter_block(
        &mut self,
        alloc: Global,
        rows: &[Row],
        home: usize,
        begun: Begun,
        body: NodeId,
    ) -> Result<(), NoMemory>
        requires opened { IsOpened rows.now self.old }
        requires reduced { IsReduced self.old.layers.focus }
        requires term { IsTerm rows.now body }
        requires home { home < length self.old.locals }
        ensures ok { OnOk result ((P : World) (written : Around) → P.rows ≡ rows.now → slice_get self.old.locals home ≡ Some written → fiber_of P self.new ≡ in_block P (fiber_of P self.old) home written begun body) }
        ensures neat { OnOk result (IsNeat rows.now self.new.layers) }
        ensures err { OnErr result (self.new ≡ self.old) }
    {
        let Begun { slots, made } = begun;
        let locals = in_block(alloc, &self.locals[home], home, slots)?;
        enter(&mut self.locals, &mut self.variables, locals, made)?;
        self.stack.put_block(body);
        settle(rows, &self.stack, &mut self.progress);
        Ok(())
    }

    /// The fiber with this number that begins with a block, which was written in this one where it stands. It is ready in that context.
    pub fn spawned(
        &self,
        alloc: Global,
        number: FiberId,
        context: ContextId,
        scope: &Scope,
    ) -> Result<Fiber, NoMemory>
        ensures fiber { IfOk result (λ f. (P : World) → fiber_of P f ≡ new_fiber P number.0 (fiber_of P self.now) context.0 scope.now) }
        ensures neat { IfOk result (λ f. (rows : List Row) → IsTerm rows scope.now.body → IsNeat rows f.layers) }
    {
        let Begun { slots, made } = begin(alloc, number, 0, scope, &[])?;
        let all = self.locals.as_slice();
        let outer = around(alloc, all, all.len(), self.innermost())?;
        let locals = first_locals(alloc, outer, slots)?;
        let stack = Stack::of_block(alloc, scope.body)?;
        Ok(Fiber {
            stack,
            locals,
            variables: made,
            context,
            progress: Progress::Ready,
        })
    }
}
