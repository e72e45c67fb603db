//! One reduction of a fiber, where its redex is one of control.
ghost use Rattle.std.specs.Prelude.{◌≡◌, ◌&&◌, ℕ, false, slice_get, IfOk, OnErr};
ghost use Rattle.cr_meaning.specs.World.{World};
ghost use Rattle.cr_meaning.specs.State.{State};
ghost use Rattle.cr_meaning.specs.Act.{Choice};
ghost use Rattle.cr_meaning.specs.Reduce.{reduce};
ghost use Rattle.cr_stack.specs.Layers.{IsWorldOf};
ghost use Rattle.cr_steps.specs.Control.{fibers_of, is_chosen, is_left_in, is_other, is_went, reduced_to, with_fibers, AreNeat};
ghost use Rattle.cr_steps.specs.Step.{is_deed};

use crate::acting::act;
use crate::deciding::decide;
use crate::step::{Step, is_deed};
use cr_base::NoMemory;
use cr_core::CoreTree;
use cr_fibers::Fiber;
use std::alloc::Global;

/// What the reduction of a fiber came to.
#[derive(Clone, Copy, Debug, PartialEq, Eq)]
pub enum Control {
    /// It was made.
    Went,
    /// There is none: the fiber is stuck, or has no redex, or was not made.
    Stuck,
    /// It takes no choice, and there was one.
    BadChoice,
    /// The redex is none of control.
    Other,
}

/// Makes one reduction of the fiber at a place, where its redex is one of control; `chosen` tells whether a clause or a partner was
/// chosen. The answer is `Other` exactly where the fiber has another redex. All that the meaning knows is as it was unless the answer
/// is `Went`, also after want of memory.
pub fn step_control(
    alloc: Global,
    tree: &CoreTree,
    fibers: &mut Vec<Fiber>,
    at: usize,
    chosen: bool,
) -> Result<Control, NoMemory>
    requires { AreNeat tree.now.rows fibers.old.items }
    ensures step { IfOk result (λ told. is_other told ≡ false → (P : World) (s : State) (choice : Choice) → IsWorldOf P tree.now → s.fibers ≡ fibers_of P fibers.old.items → is_chosen choice ≡ chosen →
        reduce P s at choice ≡ reduced_to told (with_fibers s (fibers_of P fibers.new.items))) }
    ensures other { IfOk result (λ told. (P : World) → IsWorldOf P tree.now → is_other told ≡ is_left_in (slice_get (fibers_of P fibers.old.items) at)) }
    ensures same { IfOk result (λ told. is_went told ≡ false → (P : World) → IsWorldOf P tree.now → fibers_of P fibers.new.items ≡ fibers_of P fibers.old.items) }
    ensures neat { AreNeat tree.now.rows fibers.new.items }
    ensures err { OnErr result ((P : World) → IsWorldOf P tree.now → fibers_of P fibers.new.items ≡ fibers_of P fibers.old.items) }
{
    if at >= fibers.len() {
        return Ok(Control::Stuck);
    }
    fibers[at].open(alloc, tree)?;
    let step = decide(alloc, tree, fibers.as_slice(), &fibers[at])?;
    if is_barred(&step, chosen) {
        return Ok(Control::BadChoice);
    }
    Ok(act(tree.rows(), fibers, at, step))
}

/// Whether a choice bars a step.
fn is_barred(step: &Step, chosen: bool) -> bool
    ensures { result ≡ (chosen && is_deed step.now) }
{
    chosen && is_deed(step)
}
