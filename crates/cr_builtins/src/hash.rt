//! A hash is its list of pairs, in the order in which their keys came.
ghost use Rattle.std.specs.Prelude.{◌≡◌, ◌≢◌, ◌≤◌, ◌||◌, nat_lt, [], length, map, IfOk, OnOk, OnErr, AllPairs};
ghost use Rattle.std.specs.Option.{option_copied};
ghost use Rattle.cr_builtins.specs.Cells.{change, with};
ghost use Rattle.cr_builtins.specs.Hashes.{find, has, put, set, without, key_of, key_operand, on_hash};
ghost use Rattle.cr_builtins.specs.Outcomes.{second};

use crate::answer::{Answer, ENTRY_LIMIT, copied, count, or_key, or_nil};
use crate::array::Array;
use crate::operands::second;
use crate::operation::HashOperation;
use crate::raise::Raise;
use crate::scalars::is_reference;
use cr_base::NoMemory;
use cr_value::Value;
use indexmap::IndexMap;
use std::alloc::Global;
use std::marker::Model;

/// A hash of a run. Contracts see the list of its pairs of a key and a value, of which there are at most `ENTRY_LIMIT`.
#[derive(Drop)]
pub struct Hash {
    pairs: IndexMap<Value, Value>,
}

impl Model for Hash {
    ghost use Rattle.std.specs.Prelude.{List, ◌≤◌, length};
    ghost use Rattle.cr_value.specs.declared.value.Value.{Value as TheValue};
    ghost use Rattle.cr_builtins.specs.declared.answer.TheConstants.{ENTRY_LIMIT};

    ghost Value = { List (TheValue × TheValue) };

    ghost view = { λ h. h.pairs.entries };

    ghost invariant = { λ h. length h.pairs.entries ≤ ENTRY_LIMIT };
}

/// The first argument, as a key; a reference is none.
fn key_operand(arguments: &[Value]) -> Option<&Value>
    ensures { option_copied result ≡ key_operand arguments.now }
{
    match arguments {
        [value, ..] => key_of(value),
        [] => None,
    }
}

/// The value as a key; a reference is none.
fn key_of(value: &Value) -> Option<&Value>
    ensures { option_copied result ≡ key_of value.now }
{
    if is_reference(value) {
        None
    } else {
        Some(value)
    }
}

impl Hash {
    /// A hash with no pair. It takes no memory.
    pub fn new(alloc: Global) -> Hash
        ensures { result ≡ [] }
    {
        Hash {
            pairs: IndexMap::new(alloc),
        }
    }

    /// The number of pairs. Their keys are distinct.
    pub fn len(&self) -> usize
        ensures value { result ≡ length self.now }
        ensures within { length self.now ≤ ENTRY_LIMIT }
        ensures distinct { AllPairs (λ a b. a ≢ b) (map (λ pair. pair.0) self.now) }
    {
        self.pairs.len()
    }

    /// The value of a key.
    pub fn get(&self, key: &Value) -> Option<&Value>
        ensures { option_copied result ≡ find key.now self.now }
    {
        self.pairs.get(key)
    }

    /// A copy of the value of a key.
    fn value(&self, alloc: Global, key: &Value) -> Result<Option<Value>, NoMemory>
        ensures { IfOk result (λ copy. copy ≡ find key.now self.now) }
    {
        copied(alloc, self.get(key))
    }

    /// `[]`
    #[tactic(auto, unfolding(crate::specs::Hashes::on_hash))]
    fn index(&self, alloc: Global, arguments: &[Value]) -> Result<Answer, NoMemory>
        ensures { IfOk result (λ answer. on_hash HashOperation.Get self.now arguments.now ≡ change self.now answer) }
    {
        match key_operand(arguments) {
            Some(key) => Ok(or_key(self.value(alloc, key)?)),
            None => Ok(Answer::Stuck),
        }
    }

    /// `[]?`
    #[tactic(auto, unfolding(crate::specs::Hashes::on_hash))]
    fn index_or_nil(&self, alloc: Global, arguments: &[Value]) -> Result<Answer, NoMemory>
        ensures { IfOk result (λ answer. on_hash HashOperation.GetOrNil self.now arguments.now ≡ change self.now answer) }
    {
        match key_operand(arguments) {
            Some(key) => Ok(or_nil(self.value(alloc, key)?)),
            None => Ok(Answer::Stuck),
        }
    }

    /// Puts a value under a key.
    fn insert(&mut self, key: Value, value: Value) -> Result<(), NoMemory>
        requires { length (put key value self.old) ≤ ENTRY_LIMIT }
        ensures ok { OnOk result (self.new ≡ put key value self.old) }
        ensures err { OnErr result (self.new ≡ self.old) }
    {
        self.pairs.insert(key, value)?;
        Ok(())
    }

    /// Puts copies under a key, and gives the value.
    fn write(&mut self, alloc: Global, key: &Value, value: &Value) -> Result<Answer, NoMemory>
        requires { length (put key.now value.now self.old) ≤ ENTRY_LIMIT }
        ensures ok { IfOk result (λ answer. change (put key.now value.now self.old) (Answer.Gives value.now) ≡ change self.new answer) }
        ensures err { OnErr result (self.new ≡ self.old) }
    {
        let given = value.copy(alloc)?;
        self.insert(key.copy(alloc)?, value.copy(alloc)?)?;
        Ok(Answer::Gives(given))
    }

    /// Whether the key is there.
    fn has(&self, key: &Value) -> bool
        ensures { result ≡ has key.now self.now }
    {
        self.pairs.contains_key(key)
    }

    /// Whether the key is there, or the limit lets it in.
    fn may_take(&self, key: &Value) -> bool
        ensures value { result ≡ (has key.now self.now || nat_lt (length self.now) ENTRY_LIMIT) }
        ensures within { length self.now ≤ ENTRY_LIMIT }
    {
        let length = self.len();
        self.has(key) || length < ENTRY_LIMIT
    }

    /// Puts copies under a key, where the key is there or the limit lets it in.
    fn set_value(&mut self, alloc: Global, key: &Value, value: &Value) -> Result<Answer, NoMemory>
        ensures ok { IfOk result (λ answer. set self.old key.now value.now ≡ change self.new answer) }
        ensures err { OnErr result (self.new ≡ self.old) }
    {
        if self.may_take(key) {
            self.write(alloc, key, value)
        } else {
            Ok(Answer::Raises(Raise::Limit))
        }
    }

    /// `[]=` at a key.
    fn set_key(
        &mut self,
        alloc: Global,
        key: &Value,
        arguments: &[Value],
    ) -> Result<Answer, NoMemory>
        ensures ok { IfOk result (λ answer. with self.old (second arguments.now) (set self.old key.now) ≡ change self.new answer) }
        ensures err { OnErr result (self.new ≡ self.old) }
    {
        match second(arguments) {
            Some(value) => self.set_value(alloc, key, value),
            None => Ok(Answer::Stuck),
        }
    }

    /// `[]=`
    #[tactic(auto, unfolding(crate::specs::Hashes::on_hash))]
    fn set(&mut self, alloc: Global, arguments: &[Value]) -> Result<Answer, NoMemory>
        ensures ok { IfOk result (λ answer. on_hash HashOperation.Set self.old arguments.now ≡ change self.new answer) }
        ensures err { OnErr result (self.new ≡ self.old) }
    {
        match key_operand(arguments) {
            Some(key) => self.set_key(alloc, key, arguments),
            None => Ok(Answer::Stuck),
        }
    }

    /// `has_key?`
    #[tactic(auto, unfolding(crate::specs::Hashes::on_hash))]
    fn has_key(&self, arguments: &[Value]) -> Answer
        ensures { on_hash HashOperation.HasKey self.now arguments.now ≡ change self.now result }
    {
        match key_operand(arguments) {
            Some(key) => Answer::Gives(Value::Flag(self.has(key))),
            None => Answer::Stuck,
        }
    }

    /// Takes the pair of a key, and gives its value.
    fn remove(&mut self, key: &Value) -> Option<Value>
        ensures value { result ≡ find key.now self.old }
        ensures rest { self.new ≡ without key.now self.old }
    {
        self.pairs.shift_remove(key)
    }

    /// `delete`
    #[tactic(auto, unfolding(crate::specs::Hashes::on_hash))]
    fn delete(&mut self, arguments: &[Value]) -> Answer
        ensures { on_hash HashOperation.Delete self.old arguments.now ≡ change self.new result }
    {
        match key_operand(arguments) {
            Some(key) => or_nil(self.remove(key)),
            None => Answer::Stuck,
        }
    }

    /// `keys`
    #[tactic(auto, unfolding(crate::specs::Hashes::on_hash))]
    fn keys(&self, alloc: Global) -> Result<Answer, NoMemory>
        ensures { IfOk result (λ answer. on_hash HashOperation.Keys self.now [] ≡ change self.now answer) }
    {
        Ok(Answer::Makes(Array::copy_of(alloc, self.pairs.keys().as_slice())?))
    }

    /// `values`
    #[tactic(auto, unfolding(crate::specs::Hashes::on_hash))]
    fn values(&self, alloc: Global) -> Result<Answer, NoMemory>
        ensures { IfOk result (λ answer. on_hash HashOperation.Values self.now [] ≡ change self.now answer) }
    {
        Ok(Answer::Makes(Array::copy_of(alloc, self.pairs.values().as_slice())?))
    }

    /// `clear`
    #[tactic(auto, unfolding(crate::specs::Hashes::on_hash))]
    fn clear(&mut self) -> Answer
        ensures { on_hash HashOperation.Clear self.old [] ≡ change self.new result }
    {
        self.pairs.clear();
        Answer::Itself
    }

    /// What a hash does: its list of pairs afterwards, and the answer. After want of memory the hash is as before.
    #[tactic(auto, unfolding(crate::specs::Hashes::on_hash))]
    pub fn apply(
        &mut self,
        alloc: Global,
        operation: HashOperation,
        arguments: &[Value],
    ) -> Result<Answer, NoMemory>
        ensures ok { IfOk result (λ answer. on_hash operation self.old arguments.now ≡ change self.new answer) }
        ensures err { OnErr result (self.new ≡ self.old) }
    {
        match operation {
            HashOperation::Size => Ok(count(self.len())),
            HashOperation::IsEmpty => Ok(Answer::Gives(Value::Flag(self.len() == 0))),
            HashOperation::Get => self.index(alloc, arguments),
            HashOperation::GetOrNil => self.index_or_nil(alloc, arguments),
            HashOperation::Set => self.set(alloc, arguments),
            HashOperation::HasKey => Ok(self.has_key(arguments)),
            HashOperation::Delete => Ok(self.delete(arguments)),
            HashOperation::Keys => self.keys(alloc),
            HashOperation::Values => self.values(alloc),
            HashOperation::Clear => Ok(self.clear()),
        }
    }
}
