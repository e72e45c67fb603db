//! What literals make, and new channels.
ghost use Rattle.std.specs.Prelude.{◌≡◌, ◌≤◌, [], ◌∷◌, length, drop, true, false, None, IfOk, IfErr};
ghost use Rattle.cr_meaning.specs.State.{State, Chan};
ghost use Rattle.cr_meaning.specs.Act.{gives, outcome_of};
ghost use Rattle.cr_meaning.specs.Builtins.{hash_of, hash_from};
ghost use Rattle.cr_meaning.specs.Calls.{makes_cell};
ghost use Rattle.cr_meaning.specs.Channels.{makes_channel};
ghost use Rattle.cr_heap.specs.Told.{is_given};

use cr_base::NoMemory;
use cr_builtins::{Answer, Array, ENTRY_LIMIT, Hash, HashOperation, Outcome, Raise};
use cr_items::Items;
use cr_value::Value;
use std::alloc::Global;

// The most items that a channel settles.
const CAPACITY_LIMIT: i32 = 65_536;

/// An array of copies of these values. More of them than an array may have are answered with want of memory.
pub(crate) fn array_of(alloc: Global, values: &[Value]) -> Result<Array, NoMemory>
    ensures { IfOk result (λ made. made ≡ values.now) }
{
    if values.len() > ENTRY_LIMIT {
        return Err(NoMemory);
    }
    let mut copies = Vec::with_capacity(alloc, values.len())?;
    for value in values {
        copies.push(value.copy(alloc)?)?;
    }
    Ok(Array::of(copies))
}

/// Puts the first two values, a key and its value, into a hash; not so where the first is no key. More pairs than a hash may have are
/// answered with want of memory.
fn put_first(alloc: Global, hash: &mut Hash, values: &[Value]) -> Result<bool, NoMemory>
    requires { 2 ≤ length values.now }
    ensures put { IfOk result (λ put. put ≡ true → hash_from hash.old values.now ≡ hash_from hash.new (drop 2 values.now)) }
    ensures stuck { IfOk result (λ put. put ≡ false → hash_from hash.old values.now ≡ None) }
{
    match hash.apply(alloc, HashOperation::Set, values)? {
        Answer::Gives(_) => Ok(true),
        Answer::Stuck => Ok(false),
        Answer::Itself | Answer::Makes(_) | Answer::Raises(_) => Err(NoMemory),
    }
}

/// The hash of keys and values that stand in turn, filled from left to right: `None` where a key is a reference, or the last one has no
/// value. More pairs than a hash may have are answered with want of memory.
#[tactic(auto, using(crate::proofs::Keeping::hash_last))]
pub(crate) fn hash_of(alloc: Global, values: &[Value]) -> Result<Option<Hash>, NoMemory>
    ensures { IfOk result (λ made. made ≡ hash_of values.now) }
{
    let mut hash = Hash::new(alloc);
    let mut rest = values;
    while rest.len() >= 2 {
        if !put_first(alloc, &mut hash, rest)? {
            return Ok(None);
        }
        rest = &rest[2..];
    }
    Ok(rest.is_empty().then_some(hash))
}

/// The channel that is made with these arguments, or what else that comes to.
pub(crate) fn channel_of(alloc: Global, arguments: &[Value]) -> Result<Items, Outcome>
    ensures made { IfOk result (λ made. (s : State) → makes_channel s arguments.now ≡ makes_cell s (Chan made) gives) }
    ensures other { IfErr result (λ outcome. (s : State) → makes_channel s arguments.now ≡ outcome_of s outcome) }
    ensures not_given { IfErr result (λ outcome. is_given outcome ≡ false) }
{
    match arguments {
        [] => Ok(Items::new(alloc, 0)),
        [Value::Small(capacity)] => channel_with(alloc, *capacity),
        _ => Err(Outcome::Stuck),
    }
}

/// The channel of this capacity, or the raise where that is out of range.
fn channel_with(alloc: Global, capacity: i32) -> Result<Items, Outcome>
    ensures made { IfOk result (λ made. (s : State) → makes_channel s (Value.Small capacity ∷ []) ≡ makes_cell s (Chan made) gives) }
    ensures other { IfErr result (λ outcome. (s : State) → makes_channel s (Value.Small capacity ∷ []) ≡ outcome_of s outcome) }
    ensures not_given { IfErr result (λ outcome. is_given outcome ≡ false) }
{
    if capacity < 0 || capacity > CAPACITY_LIMIT {
        return Err(Outcome::Raises(Raise::Argument));
    }
    Ok(Items::new(alloc, capacity as u32))
}
