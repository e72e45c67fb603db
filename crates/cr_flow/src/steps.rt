//! The statements of a body, each with where those before it lead, for all instance variables that those do not name.
ghost use Rattle.std.specs.Prelude.{◌≡◌, ◌<◌, ◌≤◌, length, slice_get, Some, IfOk, IfSome, All, Contains};
ghost use Rattle.cr_base.specs.declared.ids.NodeId.{NodeId};
ghost use Rattle.cr_flow.specs.Chain.{IsForward};
ghost use Rattle.cr_flow.specs.Under.{ArePasts, AreFirsts};
ghost use Rattle.cr_flow.specs.Outs as outs;
ghost use Rattle.cr_flow.specs.Steps as stepping;
ghost use Rattle.cr_flow.specs.Steps.{IsStep};

use crate::chain::{Trail, trail_at};
use crate::outs::Outs;
use crate::rank::asked;
use crate::reach::{decided, reach};
use crate::under::{first_naming, higher, past};
use crate::variable::Variable;
use cr_base::{NameId, NoMemory, NodeId};
use cr_core::Row;
use std::alloc::Global;

/// A statement of a body.
#[derive(Clone, Copy, Debug, PartialEq, Eq)]
pub(crate) struct Step {
    pub at: NodeId,
    /// Where those before it lead.
    pub all: Outs,
    /// Whether there are some before it.
    pub inside: bool,
    /// The number behind all that stands under those before it.
    pub past: usize,
}

fn advanced(
    rows: &[Row],
    end: usize,
    pasts: &[usize],
    ranks: &[Option<u32>],
    z: NameId,
    step: Step,
    trail: Trail,
    first: Outs,
) -> Step
    ensures { result ≡ stepping.advanced rows.now end pasts.now ranks.now z step trail first }
{
    let rank = asked(rows, None, ranks, Variable::Field(z), step.at);
    Step {
        at: trail.rest,
        all: step.all.join(decided(rank, first)),
        inside: true,
        past: higher(step.past, past(rows.len(), end, pasts, trail.first)),
    }
}

fn is_plain(branch: Option<NodeId>) -> bool
    ensures { result ≡ stepping.is_plain branch }
{
    match branch {
        None => true,
        Some(_) => false,
    }
}

/// The next statement, where those up to it can be left without a jump.
fn next_step(
    rows: &[Row],
    end: usize,
    pasts: &[usize],
    ranks: &[Option<u32>],
    z: NameId,
    step: Step,
) -> Option<Step>
    requires forward { IsForward rows.now }
    requires pasts { ArePasts rows.now end pasts.now }
    ensures step { IfSome result (λ next. (body : NodeId) → IsStep rows.now ranks.now z body step → IsStep rows.now ranks.now z body next) }
    ensures later { IfSome result (λ next. (step.at.0 < next.at.0) × (next.at.0 < length rows.now)) }
{
    let Some(trail) = trail_at(rows, step.at) else {
        return None;
    };
    if !is_plain(trail.branch) {
        return None;
    }
    let first = reach(rows, None, ranks, Variable::Field(z), trail.first);
    if !first.goes_on() {
        return None;
    }
    Some(advanced(rows, end, pasts, ranks, z, step, trail, first))
}

/// The statements of a body, as far as they can be reached.
pub(crate) fn steps(
    alloc: Global,
    rows: &[Row],
    end: usize,
    pasts: &[usize],
    ranks: &[Option<u32>],
    z: NameId,
    body: NodeId,
) -> Result<Vec<Step>, NoMemory>
    requires forward { IsForward rows.now }
    requires pasts { ArePasts rows.now end pasts.now }
    ensures { IfOk result (λ steps. All (IsStep rows.now ranks.now z body) steps.items) }
{
    let mut steps = Vec::new(alloc);
    let mut step = Step {
        at: body,
        all: Outs::none(),
        inside: false,
        past: 0,
    };
    steps.push(step)?;
    'statements: while let Some(next) = next_step(rows, end, pasts, ranks, z, step) {
        step = next;
        steps.push(step)?;
    }
    Ok(steps)
}

/// The last statement before which all ends at this number.
fn step_before(steps: &[Step], bound: usize) -> Option<Step>
    ensures { IfSome result (λ step. Contains steps.now step × (step.past ≤ bound)) }
{
    let mut low = 0;
    let mut high = steps.len();
    'halves: while low < high {
        let middle = low + (high - low) / 2;
        if steps[middle].past <= bound {
            low = middle + 1;
        } else {
            high = middle;
        }
    }
    let Some(step) = steps.get(low.saturating_sub(1)) else {
        return None;
    };
    if step.past <= bound {
        Some(*step)
    } else {
        None
    }
}

fn finished(inside: bool, all: Outs, end: Outs) -> Outs
    ensures { result ≡ outs.finished inside all end }
{
    if inside { all.join(end.either()) } else { end }
}

/// Where a body leads without an assignment to the instance variable: walked from the statement that names it first.
pub(crate) fn reach_from(
    rows: &[Row],
    ranks: &[Option<u32>],
    steps: &[Step],
    firsts: &[usize],
    z: NameId,
    body: NodeId,
    name: NameId,
) -> Outs
    requires forward { IsForward rows.now }
    requires steps { All (IsStep rows.now ranks.now z body) steps.now }
    requires firsts { AreFirsts rows.now body.0 firsts.now }
    ensures { result ≡ stepping.field_reach rows.now ranks.now name body }
{
    let named = first_naming(firsts, name);
    let other = first_naming(firsts, z);
    let Some(step) = step_before(steps, named.min(other)) else {
        return reach(rows, None, ranks, Variable::Field(name), body);
    };
    let end = reach(rows, None, ranks, Variable::Field(name), step.at);
    finished(step.inside, step.all, end)
}
