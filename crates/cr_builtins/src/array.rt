//! An array is its list of elements. They lie in a ring, so that `shift` takes as long at any length.
ghost use Rattle.std.specs.Prelude.{◌≡◌, ◌≤◌, ◌<◌, [], length, drop, slice_get, IfOk, OnErr};
ghost use Rattle.std.specs.Option.{option_copied};
ghost use Rattle.cr_builtins.specs.Arrays.{place, element, last, without_last, set_at, add, on_array};
ghost use Rattle.cr_builtins.specs.Cells.{change, with};
ghost use Rattle.cr_builtins.specs.Outcomes.{first, second};

use crate::answer::{Answer, ENTRY_LIMIT, copied, count, or_index, or_nil};
use crate::operands::{first, number_operand, second};
use crate::operation::ArrayOperation;
use crate::raise::Raise;
use cr_base::NoMemory;
use cr_value::{Value, Width};
use std::alloc::Global;
use std::collections::VecDeque;
use std::marker::Model;

/// An array of a run. Contracts see the list of its elements, of which there are at most `ENTRY_LIMIT`.
#[derive(Debug, Drop)]
pub struct Array {
    items: VecDeque<Value>,
}

impl Model for Array {
    ghost use Rattle.std.specs.Prelude.{List, ◌≤◌, length};
    ghost use Rattle.cr_value.specs.declared.value.Value.{Value as TheValue};
    ghost use Rattle.cr_builtins.specs.declared.answer.TheConstants.{ENTRY_LIMIT};

    ghost Value = { List TheValue };

    ghost view = { λ a. a.items.items };

    ghost invariant = { λ a. length a.items.items ≤ ENTRY_LIMIT };
}

impl Array {
    /// The array with these elements.
    pub fn of(items: Vec<Value>) -> Array
        requires { length items.items ≤ ENTRY_LIMIT }
        ensures { result ≡ items.items }
    {
        Array {
            items: VecDeque::from_vec(items),
        }
    }

    /// An array of copies of these values.
    pub(crate) fn copy_of(alloc: Global, values: &[Value]) -> Result<Array, NoMemory>
        requires { length values.now ≤ ENTRY_LIMIT }
        ensures { IfOk result (λ made. made ≡ values.now) }
    {
        let mut copies = Vec::with_capacity(alloc, values.len())?;
        for value in values {
            copies.push(value.copy(alloc)?)?;
        }
        Ok(Array::of(copies))
    }

    /// The number of elements.
    pub fn len(&self) -> usize
        ensures value { result ≡ length self.now }
        ensures within { length self.now ≤ ENTRY_LIMIT }
    {
        self.items.len()
    }

    /// The element at a place, from 0.
    pub fn get(&self, at: usize) -> Option<&Value>
        ensures { option_copied result ≡ slice_get self.now at }
    {
        self.items.get(at)
    }

    /// The place that an index names; a negative one counts from the end.
    fn place(&self, index: i64) -> Option<usize>
        ensures { result ≡ place (length self.now) index }
    {
        let length = self.len();
        if index >= 0 {
            let at = index as usize;
            (at < length).then_some(at)
        } else {
            let from_end = index.unsigned_abs() as usize;
            (from_end <= length).then(|| length - from_end)
        }
    }

    /// A copy of the element that an index names.
    fn element(&self, alloc: Global, index: i64) -> Result<Option<Value>, NoMemory>
        ensures { IfOk result (λ copy. copy ≡ element self.now index) }
    {
        match self.place(index) {
            Some(at) => copied(alloc, self.get(at)),
            None => Ok(None),
        }
    }

    /// `[]`
    #[tactic(auto, unfolding(crate::specs::Arrays::on_array))]
    fn index(&self, alloc: Global, arguments: &[Value]) -> Result<Answer, NoMemory>
        ensures { IfOk result (λ answer. on_array ArrayOperation.Get self.now arguments.now ≡ change self.now answer) }
    {
        match number_operand(Width::Small, arguments) {
            Some(index) => Ok(or_index(self.element(alloc, index)?)),
            None => Ok(Answer::Stuck),
        }
    }

    /// `[]?`
    #[tactic(auto, unfolding(crate::specs::Arrays::on_array))]
    fn index_or_nil(&self, alloc: Global, arguments: &[Value]) -> Result<Answer, NoMemory>
        ensures { IfOk result (λ answer. on_array ArrayOperation.GetOrNil self.now arguments.now ≡ change self.now answer) }
    {
        match number_operand(Width::Small, arguments) {
            Some(index) => Ok(or_nil(self.element(alloc, index)?)),
            None => Ok(Answer::Stuck),
        }
    }

    /// Puts a copy of the value at a place, and gives the value.
    fn write(&mut self, alloc: Global, at: usize, value: &Value) -> Result<Answer, NoMemory>
        requires { at < length self.old }
        ensures ok { IfOk result (λ answer. set_at self.old value.now (Some at) ≡ change self.new answer) }
        ensures err { OnErr result (self.new ≡ self.old) }
    {
        let stored = value.copy(alloc)?;
        let given = value.copy(alloc)?;
        self.items[at] = stored;
        Ok(Answer::Gives(given))
    }

    /// Puts a copy of the value where an index says.
    fn set_value(&mut self, alloc: Global, index: i64, value: &Value) -> Result<Answer, NoMemory>
        ensures ok { IfOk result (λ answer. set_at self.old value.now (place (length self.old) index) ≡ change self.new answer) }
        ensures err { OnErr result (self.new ≡ self.old) }
    {
        match self.place(index) {
            Some(at) => self.write(alloc, at, value),
            None => Ok(Answer::Raises(Raise::Index)),
        }
    }

    /// `[]=` at an index.
    fn set_index(
        &mut self,
        alloc: Global,
        index: i64,
        arguments: &[Value],
    ) -> Result<Answer, NoMemory>
        ensures ok { IfOk result (λ answer. with self.old (second arguments.now) (λ v. set_at self.old v (place (length self.old) index)) ≡ change self.new answer) }
        ensures err { OnErr result (self.new ≡ self.old) }
    {
        match second(arguments) {
            Some(value) => self.set_value(alloc, index, value),
            None => Ok(Answer::Stuck),
        }
    }

    /// `[]=`
    #[tactic(auto, unfolding(crate::specs::Arrays::on_array))]
    fn set(&mut self, alloc: Global, arguments: &[Value]) -> Result<Answer, NoMemory>
        ensures ok { IfOk result (λ answer. on_array ArrayOperation.Set self.old arguments.now ≡ change self.new answer) }
        ensures err { OnErr result (self.new ≡ self.old) }
    {
        match number_operand(Width::Small, arguments) {
            Some(index) => self.set_index(alloc, index, arguments),
            None => Ok(Answer::Stuck),
        }
    }

    /// Puts a copy of the value last, where the limit lets it in.
    fn add_value(&mut self, alloc: Global, value: &Value) -> Result<Answer, NoMemory>
        ensures ok { IfOk result (λ answer. add self.old value.now ≡ change self.new answer) }
        ensures err { OnErr result (self.new ≡ self.old) }
    {
        if self.len() >= ENTRY_LIMIT {
            return Ok(Answer::Raises(Raise::Limit));
        }
        self.items.push_back(value.copy(alloc)?)?;
        Ok(Answer::Itself)
    }

    /// `<<` and `push`
    fn add(&mut self, alloc: Global, arguments: &[Value]) -> Result<Answer, NoMemory>
        ensures ok { IfOk result (λ answer. with self.old (first arguments.now) (add self.old) ≡ change self.new answer) }
        ensures err { OnErr result (self.new ≡ self.old) }
    {
        match first(arguments) {
            Some(value) => self.add_value(alloc, value),
            None => Ok(Answer::Stuck),
        }
    }

    /// Takes the last element.
    fn pop(&mut self) -> Option<Value>
        ensures value { result ≡ last self.old }
        ensures rest { self.new ≡ without_last self.old }
    {
        self.items.pop_back()
    }

    /// Takes the first element.
    fn shift(&mut self) -> Option<Value>
        ensures value { result ≡ first self.old }
        ensures rest { self.new ≡ drop 1 self.old }
    {
        self.items.pop_front()
    }

    /// A copy of the first element.
    fn front(&self, alloc: Global) -> Result<Option<Value>, NoMemory>
        ensures { IfOk result (λ copy. copy ≡ first self.now) }
    {
        copied(alloc, self.get(0))
    }

    /// A copy of the last element.
    fn back(&self, alloc: Global) -> Result<Option<Value>, NoMemory>
        ensures { IfOk result (λ copy. copy ≡ last self.now) }
    {
        copied(alloc, self.get(self.len().saturating_sub(1)))
    }

    /// `clear`
    #[tactic(auto, unfolding(crate::specs::Arrays::on_array))]
    fn clear(&mut self) -> Answer
        ensures { on_array ArrayOperation.Clear self.old [] ≡ change self.new result }
    {
        self.items.clear();
        Answer::Itself
    }

    /// What an array does: its list of elements afterwards, and the answer. After want of memory the array is as before.
    #[tactic(auto, unfolding(crate::specs::Arrays::on_array))]
    pub fn apply(
        &mut self,
        alloc: Global,
        operation: ArrayOperation,
        arguments: &[Value],
    ) -> Result<Answer, NoMemory>
        ensures ok { IfOk result (λ answer. on_array operation self.old arguments.now ≡ change self.new answer) }
        ensures err { OnErr result (self.new ≡ self.old) }
    {
        match operation {
            ArrayOperation::Size => Ok(count(self.len())),
            ArrayOperation::IsEmpty => Ok(Answer::Gives(Value::Flag(self.len() == 0))),
            ArrayOperation::Get => self.index(alloc, arguments),
            ArrayOperation::GetOrNil => self.index_or_nil(alloc, arguments),
            ArrayOperation::Set => self.set(alloc, arguments),
            ArrayOperation::Append | ArrayOperation::Push => self.add(alloc, arguments),
            ArrayOperation::Pop => Ok(or_index(self.pop())),
            ArrayOperation::PopOrNil => Ok(or_nil(self.pop())),
            ArrayOperation::Shift => Ok(or_index(self.shift())),
            ArrayOperation::ShiftOrNil => Ok(or_nil(self.shift())),
            ArrayOperation::First => Ok(or_index(self.front(alloc)?)),
            ArrayOperation::Last => Ok(or_index(self.back(alloc)?)),
            ArrayOperation::Clear => Ok(self.clear()),
        }
    }
}
