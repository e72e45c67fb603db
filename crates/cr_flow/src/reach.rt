//! Where the evaluation of a node can lead without an assignment: one pass over it, in a stack as deep as constructs stand in
//! one another.
ghost use Rattle.std.specs.Prelude.{◌≡◌, length, map, slice_get, Some, None};
ghost use Rattle.cr_flow.specs.Control as control;
ghost use Rattle.cr_flow.specs.Ways.{IsRow, IsHead};
ghost use Rattle.cr_flow.specs.Chain as chain;
ghost use Rattle.cr_flow.specs.Chain.{IsForward};
ghost use Rattle.cr_flow.specs.Outs as outs;
ghost use Rattle.cr_flow.specs.Uses as uses;

use crate::chain::{Trail, foremost, parent, trail_at};
use crate::control::{
    act, arm, assigns, behind, has_arm, heads, is_choice, is_clause, is_test, keeps, last,
    runs_apart,
};
use crate::outs::Outs;
use crate::rank::asked;
use crate::variable::{Arm, Outcome, Variable};
use cr_base::NodeId;
use cr_core::{Form, Row};

/// A node of this rank acts.
fn here(rank: Option<u32>) -> Outs
    ensures { result ≡ outs.here rank }
{
    let mut here = Outs::none();
    here.found = rank;
    here
}

/// What the act leads to, with what it may run.
fn acted(rank: Option<u32>, x: Variable, form: Form, arms: Outs) -> Outs
    ensures { result ≡ outs.acted rank x form arms }
{
    if assigns(form, x) {
        here(rank)
    } else {
        here(rank).join(act(form).join(beside(form, arms)))
    }
}

/// What the outcome of a condition leads to at once: its jumps, and the act of its row.
pub(crate) fn decided(rank: Option<u32>, test: Outs) -> Outs
    ensures { result ≡ outs.decided rank test }
{
    if test.goes_on() {
        test.jumps().join(here(rank))
    } else {
        test.jumps()
    }
}

fn beside(form: Form, arms: Outs) -> Outs
    ensures { result ≡ outs.beside form arms }
{
    if runs_apart(form) {
        arms.jumps()
    } else {
        arms.either()
    }
}

fn backed(keeps: bool, ended: Outs) -> Outs
    ensures { result ≡ outs.backed keeps ended }
{
    if keeps { ended } else { ended.either() }
}

#[cycle(reach)]
fn part(
    rows: &[Row],
    only: Option<NodeId>,
    ranks: &[Option<u32>],
    x: Variable,
    n: NodeId,
    row: &Row,
    place: u32,
) -> Outs
    requires forward { IsForward rows.now }
    requires row { IsRow rows.now n row.now }
    ensures { result ≡ outs.at (map (outs.reach rows.now (uses.asked rows.now only ranks.now x) x) (control.heads row.now.form row.now.parts)) place }
{
    let Some(part) = heads(row.form, row.parts.as_slice()).get(place as usize) else {
        return Outs::none();
    };
    reach(rows, only, ranks, x, *part)
}

#[cycle(reach)]
fn armed(
    rows: &[Row],
    only: Option<NodeId>,
    ranks: &[Option<u32>],
    x: Variable,
    n: NodeId,
    row: &Row,
    outcome: Outcome,
) -> Outs
    requires forward { IsForward rows.now }
    requires row { IsRow rows.now n row.now }
    ensures { result ≡ outs.armed row.now.form (map (outs.reach rows.now (uses.asked rows.now only ranks.now x) x) (control.heads row.now.form row.now.parts)) (control.arm row.now.form outcome) }
{
    match arm(row.form, outcome) {
        Arm::Part(place) => backed(keeps(row.form), part(rows, only, ranks, x, n, row, place)),
        Arm::Give { truthy, falsey } => Outs::ending(truthy, falsey),
    }
}

#[cycle(reach)]
fn tested(
    rows: &[Row],
    only: Option<NodeId>,
    ranks: &[Option<u32>],
    x: Variable,
    n: NodeId,
    row: &Row,
) -> Outs
    requires forward { IsForward rows.now }
    requires row { IsRow rows.now n row.now }
    ensures { result ≡ outs.tested (uses.asked rows.now only ranks.now x n) row.now.form (map (outs.reach rows.now (uses.asked rows.now only ranks.now x) x) (control.heads row.now.form row.now.parts)) }
{
    let test = part(rows, only, ranks, x, n, row, 0);
    let mut all = decided(asked(rows, only, ranks, x, n), test);
    if test.yes {
        all = all.join(armed(rows, only, ranks, x, n, row, Outcome::Yes));
    }
    if test.no {
        all = all.join(armed(rows, only, ranks, x, n, row, Outcome::No));
    }
    all
}

/// Of the last part of a row.
#[cycle(reach)]
fn last_part(
    rows: &[Row],
    only: Option<NodeId>,
    ranks: &[Option<u32>],
    x: Variable,
    n: NodeId,
    row: &Row,
) -> Outs
    requires forward { IsForward rows.now }
    requires row { IsRow rows.now n row.now }
    ensures { result ≡ outs.at_node (outs.reach rows.now (uses.asked rows.now only ranks.now x) x) (control.last row.now.parts) }
{
    let Some(part) = last(row.parts.as_slice()) else {
        return Outs::none();
    };
    reach(rows, only, ranks, x, part)
}

#[cycle(reach)]
fn clause(rows: &[Row], only: Option<NodeId>, ranks: &[Option<u32>], x: Variable, n: NodeId) -> Outs
    requires forward { IsForward rows.now }
    ensures { result ≡ outs.clause_outs (outs.reach rows.now (uses.asked rows.now only ranks.now x) x) (slice_get rows.now n.0) }
{
    let Some(row) = rows.get(n.0 as usize) else {
        return Outs::none();
    };
    if is_clause(row.form) {
        last_part(rows, only, ranks, x, n, row)
    } else {
        Outs::none()
    }
}

#[cycle(reach)]
fn own_arm(
    rows: &[Row],
    only: Option<NodeId>,
    ranks: &[Option<u32>],
    x: Variable,
    n: NodeId,
    row: &Row,
) -> Outs
    requires forward { IsForward rows.now }
    requires row { IsRow rows.now n row.now }
    ensures { result ≡ outs.own_outs (outs.reach rows.now (uses.asked rows.now only ranks.now x) x) row.now }
{
    if has_arm(row.form) {
        last_part(rows, only, ranks, x, n, row)
    } else {
        Outs::none()
    }
}

#[cycle(reach)]
fn arms(
    rows: &[Row],
    only: Option<NodeId>,
    ranks: &[Option<u32>],
    x: Variable,
    n: NodeId,
    row: &Row,
) -> Outs
    requires forward { IsForward rows.now }
    requires row { IsRow rows.now n row.now }
    ensures { result ≡ outs.arms_outs (outs.reach rows.now (uses.asked rows.now only ranks.now x) x) rows.now row.now }
{
    let mut all = own_arm(rows, only, ranks, x, n, row);
    if is_choice(row.form) {
        for c in heads(row.form, row.parts.as_slice()) {
            all = all.join(clause(rows, only, ranks, x, *c));
        }
    }
    all
}

/// The parts behind the first, then the act.
#[cycle(reach)]
fn in_order(
    rows: &[Row],
    only: Option<NodeId>,
    ranks: &[Option<u32>],
    x: Variable,
    n: NodeId,
    row: &Row,
    first: Outs,
) -> Outs
    requires forward { IsForward rows.now }
    requires row { IsRow rows.now n row.now }
    requires first { (c : NodeId) × IsHead row.now 0 c × (first ≡ outs.reach rows.now (uses.asked rows.now only ranks.now x) x c) }
    ensures { result ≡ outs.chain outs.none (outs.acted (uses.asked rows.now only ranks.now x n) x row.now.form (outs.arms_outs (outs.reach rows.now (uses.asked rows.now only ranks.now x) x) rows.now row.now)) (map (outs.reach rows.now (uses.asked rows.now only ranks.now x) x) (control.heads row.now.form row.now.parts)) }
{
    let mut all = first.jumps();
    if !first.goes_on() {
        return all;
    }
    for p in behind(heads(row.form, row.parts.as_slice())) {
        let one = reach(rows, only, ranks, x, *p);
        all = all.join(one.jumps());
        if !one.goes_on() {
            return all;
        }
    }
    all.join(acted(
        asked(rows, only, ranks, x, n),
        x,
        row.form,
        arms(rows, only, ranks, x, n, row),
    ))
}

/// Of a row by what its first part leads to.
#[cycle(reach)]
fn after(
    rows: &[Row],
    only: Option<NodeId>,
    ranks: &[Option<u32>],
    x: Variable,
    n: NodeId,
    first: Outs,
) -> Outs
    requires forward { IsForward rows.now }
    requires first { (c : NodeId) × (chain.first_in (slice_get rows.now n.0) ≡ Some c) × (first ≡ outs.reach rows.now (uses.asked rows.now only ranks.now x) x c) }
    ensures { result ≡ outs.reach rows.now (uses.asked rows.now only ranks.now x) x n }
{
    let Some(row) = rows.get(n.0 as usize) else {
        return Outs::none();
    };
    in_order(rows, only, ranks, x, n, row, first).caught(row.form)
}

/// Of a condition, or of a row that acts at once.
#[cycle(reach)]
fn base(rows: &[Row], only: Option<NodeId>, ranks: &[Option<u32>], x: Variable, n: NodeId) -> Outs
    requires forward { IsForward rows.now }
    requires last { chain.first_in (slice_get rows.now n.0) ≡ None }
    ensures { result ≡ outs.reach rows.now (uses.asked rows.now only ranks.now x) x n }
{
    let Some(row) = rows.get(n.0 as usize) else {
        return Outs::none();
    };
    if is_test(row.form) {
        tested(rows, only, ranks, x, n, row).caught(row.form)
    } else {
        acted(
            asked(rows, only, ranks, x, n),
            x,
            row.form,
            arms(rows, only, ranks, x, n, row),
        )
        .caught(row.form)
    }
}

/// First parts stand in one another without bound: they are left by a loop.
#[cycle(reach)]
fn line(rows: &[Row], only: Option<NodeId>, ranks: &[Option<u32>], x: Variable, n: NodeId) -> Outs
    requires { IsForward rows.now }
    ensures { result ≡ outs.reach rows.now (uses.asked rows.now only ranks.now x) x n }
{
    let mut at = foremost(rows, n);
    let mut all = base(rows, only, ranks, x, at);
    'up: while at.0 != n.0 {
        let Some(around) = parent(rows, at) else {
            return Outs::none();
        };
        all = after(rows, only, ranks, x, around, all);
        at = around;
    }
    all
}

/// Of what comes before a row goes on as its last part.
#[cycle(reach)]
fn led(
    rows: &[Row],
    only: Option<NodeId>,
    ranks: &[Option<u32>],
    x: Variable,
    n: NodeId,
    trail: Trail,
    first: Outs,
) -> Outs
    requires forward { IsForward rows.now }
    requires trail { chain.trail_in (slice_get rows.now n.0) ≡ Some trail }
    ensures { result ≡ outs.led (uses.asked rows.now only ranks.now x n) (outs.reach rows.now (uses.asked rows.now only ranks.now x) x) first trail.branch }
{
    let Some(branch) = trail.branch else {
        return decided(asked(rows, only, ranks, x, n), first);
    };
    if !first.yes {
        return decided(asked(rows, only, ranks, x, n), first);
    }
    decided(asked(rows, only, ranks, x, n), first).join(reach(
        rows, only, ranks, x, branch,
    ).either())
}

fn leads_on(first: Outs, branch: Option<NodeId>) -> bool
    ensures { result ≡ outs.leads_on first branch }
{
    match branch {
        None => first.goes_on(),
        Some(_) => first.no,
    }
}

/// What goes on as its last part, as statements and `elsif` do, is walked by a loop.
#[cycle(reach)]
pub(crate) fn reach(
    rows: &[Row],
    only: Option<NodeId>,
    ranks: &[Option<u32>],
    x: Variable,
    n: NodeId,
) -> Outs
    requires { IsForward rows.now }
    ensures { result ≡ outs.reach rows.now (uses.asked rows.now only ranks.now x) x n }
{
    let mut all = Outs::none();
    let mut at = n;
    let mut inside = false;
    'trails: while let Some(trail) = trail_at(rows, at) {
        let first = reach(rows, only, ranks, x, trail.first);
        all = all.join(led(rows, only, ranks, x, at, trail, first));
        if !leads_on(first, trail.branch) {
            return all;
        }
        at = trail.rest;
        inside = true;
    }
    let end = line(rows, only, ranks, x, at);
    if inside {
        return all.join(end.either());
    }
    end
}
