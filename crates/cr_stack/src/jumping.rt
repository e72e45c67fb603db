//! Where jumps end: the innermost loop, call or block that does not let a jump through is left by it, or bars it.
ghost use Rattle.std.specs.Prelude.{◌≡◌, ◌<◌, ◌+◌, [], ◌∷◌, ◌++◌, length, slice_get, MatchOption, Some};
ghost use Rattle.cr_stack.specs.declared.around.Around.{Around};
ghost use Rattle.cr_stack.specs.declared.around.Now.TheVariants as now;
ghost use Rattle.cr_stack.specs.Steps.{finished};
ghost use Rattle.cr_stack.specs.Jumps.{lets_through, AllLet, Stopped, fate, given, Comes};

use crate::around::{Around, Now, finished};
use cr_base::NodeId;
use cr_value::Value;

/// A jump that looks for the loop, block or call that it leaves.
#[derive(Drop)]
pub enum Exit {
    /// The end of a loop's turn.
    Again,
    /// `break`
    Break,
    /// `next` with its value.
    Next(Value),
    /// `return` with its value.
    Return(Value),
}

/// Where a jump comes to.
#[derive(Clone, Copy, Debug, PartialEq, Eq)]
pub enum Jumped {
    /// No loop, call or block catches it. Nothing has changed.
    Outwards,
    /// It ended, with the locals of what it left, or without.
    Ends { leaves_locals: bool },
    /// A call or a block bars it. Nothing has changed.
    Barred,
}

/// What a layer that does not let a jump through makes of it.
#[derive(Clone, Copy)]
pub(crate) enum Fate {
    Bars,
    /// The loop that begins with this node begins a fresh turn.
    Begins(NodeId),
    /// The layer ends.
    Gives { leaves_locals: bool },
}

/// Makes a jump, if it ends anywhere.
pub(crate) fn jump(around: &mut Vec<Around>, focus: &mut Now, exit: Exit) -> Jumped
    ensures { Comes around.old.items focus.old exit around.new.items focus.new result }
{
    let Some(at) = catcher(around.as_slice(), &exit) else {
        return Jumped::Outwards;
    };
    match fate_at(&around[at], &exit) {
        Fate::Bars => Jumped::Barred,
        Fate::Begins(node) => {
            around.truncate(at + 1);
            *focus = Now::Node(node);
            Jumped::Ends {
                leaves_locals: false,
            }
        }
        Fate::Gives { leaves_locals } => {
            around.truncate(at + 1);
            *focus = end_innermost(around, Now::Value(given(exit)));
            Jumped::Ends { leaves_locals }
        }
    }
}

/// Takes the innermost layer off, and gives what it gives where this value ends it.
fn end_innermost(around: &mut Vec<Around>, value: Now) -> Now
    requires { 0 < length around.old.items }
    ensures { (k : Around) × (around.old.items ≡ around.new.items ++ k ∷ []) × (result ≡ finished k value) }
{
    match around.pop() {
        Some(layer) => finished(layer, value),
        None => value,
    }
}

/// The place of the innermost layer that does not let the jump through.
fn catcher(around: &[Around], exit: &Exit) -> Option<usize>
    ensures { MatchOption result (AllLet exit.now around.now) (λ at. Stopped around.now exit.now at) }
{
    let mut at = around.len();
    while at > 0 {
        if !lets_through(&around[at - 1], exit) {
            return Some(at - 1);
        }
        at -= 1;
    }
    None
}

fn lets_through(layer: &Around, exit: &Exit) -> bool
    ensures { result ≡ lets_through layer.now exit.now }
{
    match layer {
        Around::Part(..) | Around::Choice { .. } => true,
        Around::Turn(_) => matches!(exit, Exit::Return(_)),
        Around::Frame(_) | Around::Body => false,
    }
}

fn fate_at(layer: &Around, exit: &Exit) -> Fate
    ensures { result ≡ fate layer.now exit.now }
{
    match (layer, exit) {
        (Around::Turn(node), Exit::Again) => Fate::Begins(*node),
        (Around::Turn(node), Exit::Next(_)) => Fate::Begins(*node),
        (Around::Turn(_), Exit::Break) => Fate::Gives {
            leaves_locals: false,
        },
        (Around::Frame(_), Exit::Return(_)) => Fate::Gives {
            leaves_locals: true,
        },
        (Around::Body, Exit::Next(_)) => Fate::Gives {
            leaves_locals: true,
        },
        _ => Fate::Bars,
    }
}

/// The value that comes with a jump.
fn given(exit: Exit) -> Value
    ensures { result ≡ given exit }
{
    match exit {
        Exit::Again => Value::Nil,
        Exit::Break => Value::Nil,
        Exit::Next(value) => value,
        Exit::Return(value) => value,
    }
}
