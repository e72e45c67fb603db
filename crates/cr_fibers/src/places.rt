//! Where locals lie: outwards from a block, and around a block that a fiber begins with.
ghost use Rattle.std.specs.Prelude.{◌≡◌, ◌<◌, List, [], ◌∷◌, ◌++◌, map, slice_get, slice_set, unwrap_or, vec_len, vec_capacity, IfOk, OnOk, OnErr, if◌then◌else◌};
ghost use Rattle.std.specs.Option.{option_copied, option_map};
ghost use Rattle.cr_meaning.specs.State as m;
ghost use Rattle.cr_meaning.specs.Locals.{around, home_of, outwards, seen, seen_locals, slots_of, with_slot, without_last};
ghost use Rattle.cr_meaning.specs.Fibers.{first_locals};
ghost use Rattle.cr_fibers.specs.Held.{locals_of, slot_of};
ghost use Rattle.cr_fibers.specs.Inner.{block_locals};

use crate::locals::{Locals, Slot};
use cr_base::NoMemory;
use cr_value::Value;
use std::alloc::Global;

/// The place so many blocks further out.
pub(crate) fn outwards(locals: &[Locals], up: u32, from: usize) -> usize
    ensures { result ≡ outwards (map locals_of locals.now) up from }
{
    let mut at = from;
    for _block in 0..up {
        at = home(locals, at);
    }
    at
}

/// The place of the locals around those at a place.
fn home(locals: &[Locals], at: usize) -> usize
    ensures { result ≡ unwrap_or (home_of (slice_get (map locals_of locals.now) at)) 0 }
{
    match locals.get(at) {
        Some(found) => found.home.unwrap_or(0),
        None => 0,
    }
}

/// The slot at a place of locals.
pub(crate) fn slot_at(locals: &[Locals], place: usize, at: u32) -> Option<&Slot>
    ensures { option_map slot_of (option_copied result) ≡ slice_get (slots_of (slice_get (map locals_of locals.now) place)) at }
{
    match locals.get(place) {
        Some(found) => found.slots.get(at as usize),
        None => None,
    }
}

/// Gives a slot at a place of locals a value of its own, where it is there.
pub(crate) fn write_own(locals: &mut Vec<Locals>, place: usize, at: u32, value: Value)
    ensures { map locals_of locals.new.items ≡ with_slot (slice_get (map locals_of locals.old.items) place) at (m.Own value) (map locals_of locals.old.items) place }
{
    if place < locals.len() {
        let found = &mut locals[place];
        write_slot(&mut found.slots, at as usize, value);
    }
}

/// Puts a value in the place of another, where there is one.
pub(crate) fn write(values: &mut Vec<Value>, at: usize, value: Value)
    ensures { values.new.items ≡ slice_set values.old.items at value }
{
    if at < values.len() {
        values[at] = value;
    }
}

/// Gives a slot a value of its own, where it is there.
fn write_slot(slots: &mut Vec<Slot>, at: usize, value: Value)
    ensures { map slot_of slots.new.items ≡ slice_set (map slot_of slots.old.items) at (m.Own value) }
{
    if at < slots.len() {
        slots[at] = Slot::Own(value);
    }
}

/// The locals around a spawned block that was written among those at a place, the outermost first.
pub(crate) fn around(
    alloc: Global,
    locals: &[Locals],
    most: usize,
    at: usize,
) -> Result<Vec<Locals>, NoMemory>
    ensures { IfOk result (λ made. map locals_of made.items ≡ around (map locals_of locals.now) most at) }
{
    if most == 0 {
        return Ok(Vec::new(alloc));
    }
    let Some(found) = locals.get(at) else {
        return Ok(Vec::new(alloc));
    };
    let Some(place) = found.home else {
        let mut alone = Vec::new(alloc);
        alone.push(seen_locals(alloc, found, None)?)?;
        return Ok(alone);
    };
    let mut outer = around(alloc, locals, most - 1, place)?;
    let home = outer.len().saturating_sub(1);
    outer.push(seen_locals(alloc, found, Some(home))?)?;
    Ok(outer)
}

/// What a spawned block sees of locals: those that are captured.
fn seen_locals(alloc: Global, locals: &Locals, home: Option<usize>) -> Result<Locals, NoMemory>
    ensures { IfOk result (λ made. locals_of made ≡ seen_locals (locals_of locals.now) home) }
{
    let mut slots = Vec::new(alloc);
    for slot in &locals.slots {
        slots.push(seen(slot))?;
    }
    Ok(Locals {
        home,
        slots,
        receiver: copied(alloc, &locals.receiver)?,
        method: locals.method,
        given: None,
    })
}

/// What a spawned block sees of a slot.
fn seen(slot: &Slot) -> Slot
    ensures { slot_of result ≡ seen (slot_of slot.now) }
{
    match slot {
        Slot::Own(_) => Slot::Own(Value::Nil),
        Slot::Shared(variable) => Slot::Shared(*variable),
    }
}

/// A second value, where there is one.
pub(crate) fn copied(alloc: Global, value: &Option<Value>) -> Result<Option<Value>, NoMemory>
    ensures { IfOk result (λ made. made ≡ value.now) }
{
    match value {
        Some(value) => Ok(Some(value.copy(alloc)?)),
        None => Ok(None),
    }
}

/// Leaves the innermost locals, or stays in them.
pub(crate) fn leave(locals: &mut Vec<Locals>, leaves: bool)
    ensures { map locals_of locals.new.items ≡ (if leaves then without_last (map locals_of locals.old.items) else map locals_of locals.old.items) }
{
    if leaves {
        let _ = locals.pop();
    }
}

/// The locals of a block that was written among these at a place, with these slots.
pub(crate) fn in_block(
    alloc: Global,
    around: &Locals,
    home: usize,
    slots: Vec<Slot>,
) -> Result<Locals, NoMemory>
    ensures { IfOk result (λ made. locals_of made ≡ block_locals (map slot_of slots.items) home (locals_of around.now)) }
{
    Ok(Locals {
        home: Some(home),
        slots,
        receiver: copied(alloc, &around.receiver)?,
        method: around.method,
        given: around.given,
    })
}

/// Goes into locals, with captured locals that are new. After want of memory nothing has changed.
pub(crate) fn enter(
    locals: &mut Vec<Locals>,
    variables: &mut Vec<Value>,
    inner: Locals,
    made: Vec<Value>,
) -> Result<(), NoMemory>
    ensures ok { OnOk result ((locals.new.items ≡ locals.old.items ++ inner ∷ []) × (variables.new.items ≡ variables.old.items ++ made.items)) }
    ensures err { OnErr result ((locals.new.items ≡ locals.old.items) × (variables.new.items ≡ variables.old.items)) }
{
    locals.reserve(1)?;
    let mut made = made;
    variables.append(&mut made)?;
    push_within(locals, inner);
    Ok(())
}

/// Puts locals last, where there is room for them.
fn push_within(locals: &mut Vec<Locals>, inner: Locals)
    requires { vec_len locals.old < vec_capacity locals.old }
    ensures { locals.new.items ≡ locals.old.items ++ inner ∷ [] }
{
    let _ = locals.push(inner);
}

/// The locals of the block that a fiber begins with, with these slots, behind those around it.
pub(crate) fn first_locals(
    alloc: Global,
    outer: Vec<Locals>,
    slots: Vec<Slot>,
) -> Result<Vec<Locals>, NoMemory>
    ensures { IfOk result (λ made. (variables : List Value) → map locals_of made.items ≡ first_locals (map locals_of outer.items) (record { slots = map slot_of slots.items; variables = variables })) }
{
    let mut all = outer;
    let first = first_behind(alloc, all.as_slice(), slots)?;
    all.push(first)?;
    Ok(all)
}

/// The last of these.
fn first_behind(alloc: Global, outer: &[Locals], slots: Vec<Slot>) -> Result<Locals, NoMemory>
    ensures { IfOk result (λ made. (variables : List Value) → first_locals (map locals_of outer.now) (record { slots = map slot_of slots.items; variables = variables }) ≡ map locals_of outer.now ++ locals_of made ∷ []) }
{
    match outer.last() {
        Some(around) => in_block(alloc, around, outer.len() - 1, slots),
        None => Ok(Locals {
            home: None,
            slots,
            receiver: None,
            method: None,
            given: None,
        }),
    }
}
