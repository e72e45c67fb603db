//! What a redex of control comes to, before it is done.
ghost use Rattle.std.specs.Prelude.{◌≡◌};
ghost use Rattle.cr_steps.specs.Step.{given, is_deed};

use cr_base::NodeId;
use cr_core::Local;
use cr_fibers::Variable;
use cr_stack::Exit;
use cr_value::Value;

/// What the redex of a fiber comes to. Whoever does it takes no memory.
#[derive(Drop)]
pub(crate) enum Step {
    /// This value takes its place.
    Gives(Value),
    /// The core tree of this node takes its place.
    Goes(NodeId),
    /// The first turn of a loop that begins with this node takes its place.
    Turns(NodeId),
    /// A name gets a value of its own, and an equal one takes the place of the redex.
    SetsOwn(Local, Value, Value),
    /// A captured local gets a value, and an equal one takes the place of the redex.
    SetsShared(Variable, Value, Value),
    /// It is a jump.
    Jumps(Exit),
    /// A loop, a call or a block ends.
    Ends,
    /// It is stuck.
    Stuck,
    /// There is none.
    Nothing,
    /// It is none of control.
    Other,
}

/// The step to this value, or none.
pub(crate) fn given(value: Option<Value>) -> Step
    ensures { result ≡ given value }
{
    match value {
        Some(value) => Step::Gives(value),
        None => Step::Stuck,
    }
}

/// Whether something is to be done.
pub(crate) fn is_deed(step: &Step) -> bool
    ensures { result ≡ is_deed step.now }
{
    match step {
        Step::Stuck | Step::Nothing | Step::Other => false,
        Step::Gives(_)
        | Step::Goes(_)
        | Step::Turns(_)
        | Step::SetsOwn(..)
        | Step::SetsShared(..)
        | Step::Jumps(_)
        | Step::Ends => true,
    }
}
