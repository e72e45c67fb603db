//! How far what stands under each row goes, and which row names an instance variable first.
ghost use Rattle.std.specs.Prelude.{◌≡◌, ◌<◌, ◌≤◌, ℕ, suc, length, slice_get, Some, IfOk, All, get_or};
ghost use Rattle.cr_core.specs.declared.row.Row.{Row};
ghost use Rattle.cr_flow.specs.Chain.{IsForward};
ghost use Rattle.cr_flow.specs.Under as under;
ghost use Rattle.cr_flow.specs.Under.{ArePasts, AreFirsts};

use cr_base::{NameId, NoMemory, NodeId};
use cr_core::{Form, Row};
use std::alloc::Global;

pub(crate) fn higher(a: usize, b: usize) -> usize
    ensures { result ≡ under.higher a b }
{
    if a < b { b } else { a }
}

fn stands_under(row: &Row, body: NodeId) -> bool {
    match row.within.parent {
        Some(around) => body.0 <= around.0,
        None => false,
    }
}

/// The number behind this row and all that stands under it.
pub(crate) fn end_of(rows: &[Row], body: NodeId) -> usize
    ensures { result ≤ length rows.now }
{
    let mut end = body.0 as usize + 1;
    'rows: while end < rows.len() {
        if !stands_under(&rows[end], body) {
            return end;
        }
        end += 1;
    }
    rows.len()
}

/// The number behind all that stands under a row, of so many rows.
pub(crate) fn past(many: usize, end: usize, pasts: &[usize], n: NodeId) -> usize
    ensures { result ≡ under.past many end pasts.now n.0 }
{
    let at = n.0 as usize;
    if at >= end {
        return many;
    }
    match pasts.get(end - at - 1) {
        Some(past) => *past,
        None => many,
    }
}

fn furthest(many: usize, end: usize, pasts: &[usize], own: usize, parts: &[NodeId]) -> usize
    ensures { result ≡ under.furthest many end pasts.now own parts.now }
{
    let mut all = own;
    for part in parts {
        all = higher(all, past(many, end, pasts, *part));
    }
    all
}

/// The number behind all that stands under a row, by those of its parts.
fn own_past(rows: &[Row], end: usize, pasts: &[usize], n: usize) -> usize
    requires { n < length rows.now }
    ensures { (r : Row) → slice_get rows.now n ≡ Some r → result ≡ under.furthest (length rows.now) end pasts.now (suc n) r.parts }
{
    furthest(rows.len(), end, pasts, n + 1, rows[n].parts.as_slice())
}

/// The numbers behind all that stands under each row from the one number to before the other, from the last row to the first.
pub(crate) fn pasts(
    alloc: Global,
    rows: &[Row],
    low: usize,
    end: usize,
) -> Result<Vec<usize>, NoMemory>
    requires forward { IsForward rows.now }
    requires end { end ≤ length rows.now }
    ensures { IfOk result (λ pasts. ArePasts rows.now end pasts.items) }
{
    let mut pasts = Vec::new(alloc);
    let mut n = end;
    'rows: while n > low {
        n -= 1;
        let past = own_past(rows, end, pasts.as_slice(), n);
        pasts.push(past)?;
    }
    Ok(pasts)
}

fn named(form: Form) -> Option<NameId>
    ensures { result ≡ under.named form }
{
    match form {
        Form::Field(name) | Form::SetField(name) => Some(name),
        _ => None,
    }
}

fn note(firsts: &mut Vec<usize>, form: Form, n: usize)
    ensures { firsts.new.items ≡ under.noted n firsts.old.items (under.named form) }
{
    let Some(name) = named(form) else {
        return;
    };
    if let Some(first) = firsts.get_mut(name.0 as usize) {
        *first = n;
    }
}

/// For each name up to this one the first row from the one number on that reads or sets the instance variable of that name, else
/// the other number.
pub(crate) fn firsts(
    alloc: Global,
    rows: &[Row],
    low: usize,
    end: usize,
    last: usize,
) -> Result<Vec<usize>, NoMemory>
    requires { end ≤ length rows.now }
    ensures { IfOk result (λ firsts. AreFirsts rows.now low firsts.items) }
{
    let mut firsts = open(alloc, last, end)?;
    let mut n = end;
    'rows: while n > low {
        n -= 1;
        note(&mut firsts, rows[n].form, n);
    }
    Ok(firsts)
}

fn open(alloc: Global, last: usize, end: usize) -> Result<Vec<usize>, NoMemory>
    ensures { IfOk result (λ firsts. All (λ first. first ≡ end) firsts.items) }
{
    let mut firsts = Vec::with_capacity(alloc, last)?;
    for _ in 0..last {
        firsts.push(end)?;
    }
    firsts.push(end)?;
    Ok(firsts)
}

pub(crate) fn first_naming(firsts: &[usize], name: NameId) -> usize
    ensures { result ≡ get_or firsts.now name.0 0 }
{
    match firsts.get(name.0 as usize) {
        Some(first) => *first,
        None => 0,
    }
}
