//! Rows made from the walk round core trees.
ghost use Rattle.std.specs.Prelude.{◌≡◌, ◌≤◌, ◌^◌, length, IfOk, OnOk, Some};
ghost use Rattle.cr_core.specs.Core.{Core, stream};
ghost use Rattle.cr_core.specs.Arena as arena;
ghost use Rattle.cr_core.specs.Walk as walk;

use crate::form::{Form, ScopeId};
use crate::listed::Listed;
use crate::row::{Event, Place, Row, Within};
use cr_base::{NoMemory, NodeId};
use std::alloc::Global;

/// A node that has begun, what surrounds its parts, and those so far.
#[derive(Drop)]
struct Begun {
    row: NodeId,
    inside: Within,
    parts: Listed<NodeId>,
}

/// The rows so far, the node that began last, and those around it.
#[derive(Drop)]
struct Linking {
    alloc: Global,
    rows: Vec<Row>,
    now: Begun,
    around: Vec<Begun>,
}

/// What surrounds the parts of a row.
fn inside(form: Form, row: NodeId, within: Within) -> Within
    ensures { result ≡ arena.inside form row.0 within }
{
    let (scope, turn) = match form {
        Form::Program(scope) | Form::Block(scope) | Form::Def { scope, .. } => (scope, None),
        Form::While => (within.scope, Some(row)),
        _ => (within.scope, within.turn),
    };
    Within {
        parent: Some(row),
        scope,
        turn,
    }
}

fn open(linking: &mut Linking, form: Form, place: Place) -> Result<(), NoMemory>
    ensures seen { OnOk result (walk.seen linking.new ≡ walk.opened form place (length linking.old.rows.items) (walk.seen linking.old)) }
    ensures few { length linking.old.rows.items ≤ 2 ^ 32 → length linking.new.rows.items ≤ 2 ^ 32 }
{
    let row = linking.rows.len();
    if row > u32::MAX as usize {
        return Err(NoMemory);
    }
    let row = NodeId(row as u32);
    let within = linking.now.inside;
    linking.rows.push(Row {
        form,
        place,
        within,
        parts: Listed::new(linking.alloc),
    })?;
    linking.now.parts.push(row)?;
    let begun = Begun {
        row,
        inside: inside(form, row, within),
        parts: Listed::new(linking.alloc),
    };
    let before = std::mem::replace(&mut linking.now, begun);
    linking.around.push(before)?;
    Ok(())
}

fn close(linking: &mut Linking)
    ensures seen { walk.seen linking.new ≡ walk.ended (walk.seen linking.old) (walk.seen linking.old).around }
    ensures few { length linking.new.rows.items ≡ length linking.old.rows.items }
{
    let Some(before) = linking.around.pop() else {
        return;
    };
    let ended = std::mem::replace(&mut linking.now, before);
    set_parts(&mut linking.rows, ended.row, ended.parts);
}

/// Gives a row its parts.
fn set_parts(rows: &mut Vec<Row>, at: NodeId, parts: Listed<NodeId>)
    ensures rows { rows.new.items ≡ walk.closed at.0 parts rows.old.items }
    ensures few { length rows.new.items ≡ length rows.old.items }
{
    if let Some(row) = rows.get_mut(at.0 as usize) {
        row.parts = parts;
    }
}

fn step(linking: &mut Linking, event: Event) -> Result<(), NoMemory>
    ensures seen { OnOk result (walk.seen linking.new ≡ walk.step event (walk.seen linking.old)) }
    ensures few { length linking.old.rows.items ≤ 2 ^ 32 → length linking.new.rows.items ≤ 2 ^ 32 }
{
    match event {
        Event::Open(form, place) => open(linking, form, place),
        Event::Close => {
            close(linking);
            Ok(())
        }
    }
}

/// The rows of the core trees round which the walk goes. More than 2 ^ 32 rows are too many for memory.
pub fn link(alloc: Global, events: &[Event]) -> Result<Vec<Row>, NoMemory>
    ensures rows { (trees : Core) → events.now ≡ stream trees → IfOk result (λ rows. rows.items ≡ arena.rows trees) }
    ensures few { IfOk result (λ rows. length rows.items ≤ 2 ^ 32) }
{
    let inside = Within {
        parent: None,
        scope: ScopeId(0),
        turn: None,
    };
    let mut linking = Linking {
        alloc,
        rows: Vec::new(alloc),
        now: Begun {
            row: NodeId(0),
            inside,
            parts: Listed::new(alloc),
        },
        around: Vec::new(alloc),
    };
    for event in events {
        step(&mut linking, *event)?;
    }
    Ok(linking.rows)
}
