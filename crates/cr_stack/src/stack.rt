//! The stack of a fiber. What it stands for is the term of its layers put round one another: a step changes the innermost ones
//! alone. The number of its layers that are calls is kept beside them.
ghost use Rattle.std.specs.Prelude.{◌≡◌, ◌<◌, ◌+◌, List, [], IfOk, OnOk};
ghost use Rattle.std.specs.Option.{option_copied};
ghost use Rattle.cr_core.specs.declared.row.Row.{Row};
ghost use Rattle.cr_meaning.specs.World.{World};
ghost use Rattle.cr_meaning.specs.Term.{Val, Turn, Frame, Body, Sent, tree};
ghost use Rattle.cr_meaning.specs.Redex.{frames};
ghost use Rattle.cr_core.specs.Shape as shape;
ghost use Rattle.cr_stack.specs.Layers.{IsWorldOf, partly, ready, term};
ghost use Rattle.cr_stack.specs.Jumps.{JumpsTo, left_frames, returns};
ghost use Rattle.cr_stack.specs.Neat.{HasAll, IsNeat, IsTerm, Lacks};
ghost use Rattle.cr_stack.specs.Steps.{innermost, IsEndOrNone, IsReduced, IsOpen, Ends, Puts, Closes};
ghost use Rattle.cr_stack.specs.Shown.{IsShown, StandsThere, IsWhole, ShowsValue, alone};

use crate::around::{Around, Now, Redex, finished, frame_of};
use crate::going::go;
use crate::jumping::{Exit, Jumped, jump};
use crate::lists::push_within;
use cr_base::{NoMemory, NodeId};
use cr_core::{CoreTree, Listed};
use cr_value::Value;
use std::alloc::Global;
use std::marker::Model;

/// The term of a fiber: layers, the innermost last, and the part inside them that is reduced next.
#[derive(Drop)]
pub struct Stack {
    around: Vec<Around>,
    focus: Now,
    frames: usize,
}

impl Model for Stack {
    ghost use Rattle.std.specs.Prelude.{◌≡◌, ◌-◌, vec_len, vec_capacity};
    ghost use Rattle.cr_stack.specs.Layers.{Layers, frame_count};

    ghost Value = { Layers };

    ghost view = { λ s. record { around = s.around.items; focus = s.focus; room = vec_capacity s.around - vec_len s.around } };

    ghost invariant = { λ s. s.frames ≡ frame_count s.around.items };
}

impl Stack {
    /// The core tree of a node. Takes no memory.
    pub fn new(alloc: Global, node: NodeId) -> Self
        ensures term { (P : World) → term P result ≡ tree P node }
        ensures neat { (rows : List Row) → IsTerm rows node → IsNeat rows result }
    {
        Stack {
            around: Vec::new(alloc),
            focus: Now::Node(node),
            frames: 0,
        }
    }

    /// A block in progress whose body is the core tree of a node.
    pub fn of_block(alloc: Global, node: NodeId) -> Result<Self, NoMemory>
        ensures term { IfOk result (λ s. (P : World) → term P s ≡ Body (tree P node)) }
        ensures neat { IfOk result (λ s. (rows : List Row) → IsTerm rows node → IsNeat rows s) }
    {
        let mut around = Vec::new(alloc);
        around.push(Around::Body)?;
        Ok(Stack {
            around,
            focus: Now::Node(node),
            frames: 0,
        })
    }

    /// The part that is reduced next, where no layer surrounds it: it is the whole term. Takes no memory.
    pub fn alone(&self) -> Option<&Now>
        ensures { option_copied result ≡ alone self.now }
    {
        if self.around.is_empty() {
            Some(&self.focus)
        } else {
            None
        }
    }

    /// How many calls are in progress. Takes no memory, and looks at no layer.
    pub fn frames(&self) -> usize
        ensures { (P : World) → IsNeat P.rows self.now → result ≡ frames (term P self.now) }
    {
        self.frames
    }

    /// Goes on to the redex, and makes room for one layer more. The term stays as it is, also where memory runs out. A text of the
    /// tree that is longer than any may be is answered with want of memory.
    pub fn open(&mut self, alloc: Global, tree: &CoreTree) -> Result<(), NoMemory>
        requires { IsNeat tree.now.rows self.old }
        ensures same { (P : World) → IsWorldOf P tree.now → term P self.new ≡ term P self.old }
        ensures neat { IsNeat tree.now.rows self.new }
        ensures ok { OnOk result (IsOpen self.new × (0 < self.new.room)) }
    {
        let _ = tree.rows();
        go(alloc, tree, &mut self.around, &mut self.focus)?;
        self.around.reserve(1)?;
        Ok(())
    }

    /// What is reduced next. Takes no memory.
    pub fn redex(&self) -> Redex<'_>
        requires { IsOpen self.now }
        ensures shown { (P : World) → IsNeat P.rows self.now → IsShown P result (term P self.now) }
        ensures place { StandsThere result self.now }
        ensures whole { (rows : List Row) → IsNeat rows self.now → IsWhole rows result }
    {
        match &self.focus {
            Now::Node(_) => unreachable!(),
            Now::Value(value) => shown(self.around.as_slice(), value),
            Now::Ready(node, values) => Redex::Node(*node, values.as_slice()),
            Now::Choice(node, clauses) => Redex::Choice(*node, clauses.as_slice()),
            Now::Sent { channel, item } => Redex::Sent {
                channel: *channel,
                item: *item,
            },
        }
    }

    /// Ends the loop, call or block that is the redex: what it gives takes its place. Takes no memory.
    pub fn close(&mut self)
        requires { Ends self.old }
        ensures step { (P : World) → IsNeat P.rows self.old → Closes P self.old self.new }
        ensures neat { (rows : List Row) → IsNeat rows self.old → IsNeat rows self.new }
    {
        let Some(layer) = self.around.pop() else {
            return;
        };
        self.frames -= frame_of(&layer);
        let value = std::mem::replace(&mut self.focus, Now::Value(Value::Nil));
        self.focus = finished(layer, value);
    }

    /// Makes a jump from the part inside the layers, if it ends anywhere. Takes no memory.
    pub fn jump(&mut self, exit: Exit) -> Jumped
        requires { IsReduced self.old.focus }
        ensures step { (P : World) → IsNeat P.rows self.old → JumpsTo P exit self.old result self.new }
        ensures neat { (rows : List Row) → IsNeat rows self.old → IsNeat rows self.new }
    {
        let returns = returns(&exit);
        let told = jump(&mut self.around, &mut self.focus, exit);
        self.frames -= left_frames(returns, told);
        told
    }

    /// Puts a value in place of the redex, which is the part inside the layers. Takes no memory.
    pub fn put_value(&mut self, value: Value)
        requires { IsReduced self.old.focus }
        ensures step { Puts self.old (λ P. Val value) self.new }
        ensures neat { (rows : List Row) → IsNeat rows self.old → IsNeat rows self.new }
    {
        self.focus = Now::Value(value);
    }

    /// Puts the core tree of a node in place of the redex, which is the part inside the layers. Takes no memory.
    pub fn put_node(&mut self, node: NodeId)
        requires { IsReduced self.old.focus }
        ensures step { Puts self.old (λ P. tree P node) self.new }
        ensures neat { (rows : List Row) → IsTerm rows node → IsNeat rows self.old → IsNeat rows self.new }
    {
        self.focus = Now::Node(node);
    }

    /// Puts a send whose item stands in a channel in place of the redex, which is the part inside the layers. Takes no memory.
    pub fn put_sent(&mut self, channel: u32, item: u32)
        requires { IsReduced self.old.focus }
        ensures step { Puts self.old (λ P. Sent channel item) self.new }
        ensures neat { (rows : List Row) → IsNeat rows self.old → IsNeat rows self.new }
    {
        self.focus = Now::Sent { channel, item };
    }

    /// Puts the first turn of a loop in place of the redex, which is the part inside the layers. Takes no memory.
    pub fn put_turn(&mut self, node: NodeId)
        requires reduced { IsReduced self.old.focus }
        requires room { 0 < self.old.room }
        ensures step { Puts self.old (λ P. Turn (tree P node) (tree P node)) self.new }
        ensures neat { (rows : List Row) → IsTerm rows node → IsNeat rows self.old → IsNeat rows self.new }
    {
        push_within(&mut self.around, Around::Turn(node));
        self.focus = Now::Node(node);
    }

    /// Puts a node in place of the redex, which is the part inside the layers: of its parts the first, a node too, has these values of all
    /// parts that are reduced before it, and stands to be reduced. Takes no memory.
    pub fn put_first(&mut self, alloc: Global, node: NodeId, first: NodeId, values: Listed<Value>)
        requires reduced { IsReduced self.old.focus }
        requires room { 0 < self.old.room }
        ensures step { Puts self.old (λ P. partly P node [] (ready P first values)) self.new }
        ensures neat { (rows : List Row) → Lacks rows node [] shape.Term → HasAll rows first values shape.Term → IsNeat rows self.old → IsNeat rows self.new }
    {
        push_within(&mut self.around, Around::Part(node, Listed::new(alloc)));
        self.focus = Now::Ready(first, values);
    }

    /// Puts a call in place of the redex, which is the part inside the layers: its body is the core tree of a node. It gives its
    /// value, or the object that is told. Takes no memory.
    pub fn put_call(&mut self, gives: Option<Value>, node: NodeId)
        requires reduced { IsReduced self.old.focus }
        requires room { 0 < self.old.room }
        ensures step { Puts self.old (λ P. Frame gives (tree P node)) self.new }
        ensures neat { (rows : List Row) → IsTerm rows node → IsNeat rows self.old → IsNeat rows self.new }
    {
        push_within(&mut self.around, Around::Frame(gives));
        self.frames += 1;
        self.focus = Now::Node(node);
    }

    /// Puts a block in place of the redex, which is the part inside the layers: its body is the core tree of a node. Takes no
    /// memory.
    pub fn put_block(&mut self, node: NodeId)
        requires reduced { IsReduced self.old.focus }
        requires room { 0 < self.old.room }
        ensures step { Puts self.old (λ P. Body (tree P node)) self.new }
        ensures neat { (rows : List Row) → IsTerm rows node → IsNeat rows self.old → IsNeat rows self.new }
    {
        push_within(&mut self.around, Around::Body);
        self.focus = Now::Node(node);
    }
}

/// What is reduced next where the part inside the layers is a value: the innermost layer, or nothing where there is none.
fn shown<'a>(around: &[Around], value: &'a Value) -> Redex<'a>
    requires { IsEndOrNone (innermost around.now) }
    ensures { ShowsValue (innermost around.now) value.now result }
{
    match around.last() {
        Some(Around::Turn(_)) => Redex::Turn,
        Some(Around::Frame(_)) => Redex::Frame,
        Some(Around::Body) => Redex::Body,
        _ => Redex::Finished(value),
    }
}

/// Whether a jump leaves a call.
fn returns(exit: &Exit) -> bool
    ensures { result ≡ returns exit.now }
{
    matches!(exit, Exit::Return(_))
}

/// How many calls were left.
fn left_frames(returns: bool, told: Jumped) -> usize
    ensures { result ≡ left_frames returns told }
{
    match told {
        Jumped::Ends { .. } => usize::from(returns),
        _ => 0,
    }
}
