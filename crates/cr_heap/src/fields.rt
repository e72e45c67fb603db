//! The fields of an object: those that were assigned, by their names.
ghost use Rattle.std.specs.Prelude.{◌≡◌, ◌==◌, ℕ, false, Some, IfOk, OnOk, OnErr};
ghost use Rattle.std.specs.List.{position};
ghost use Rattle.cr_meaning.specs.State.{State, Object as ObjectCell, set_cell};
ghost use Rattle.cr_meaning.specs.Act.{gives, or_stuck, outcome_of};
ghost use Rattle.cr_meaning.specs.Reduce.{field_in, set_field, object_in};
ghost use Rattle.cr_heap.specs.Cells.{cell_of};
ghost use Rattle.cr_heap.specs.Told.{is_given};

use crate::cell::Cell;
use cr_base::{NameId, NoMemory};
use cr_builtins::Outcome;
use cr_value::Value;
use std::alloc::Global;

/// The place of a field.
fn place(fields: &[(NameId, Value)], name: NameId) -> Option<usize>
    ensures { result ≡ position (λ field. field.0.0 == name.0) fields.now }
{
    fields.iter().position(|field| field.0 == name)
}

/// A copy of a field's value: nil where it was not assigned.
pub(crate) fn read(
    alloc: Global,
    fields: &[(NameId, Value)],
    name: NameId,
) -> Result<Value, NoMemory>
    ensures { IfOk result (λ value. value ≡ field_in name fields.now) }
{
    match place(fields, name) {
        Some(at) => fields[at].1.copy(alloc),
        None => Ok(Value::Nil),
    }
}

/// Assigns a value to a field.
pub(crate) fn write(
    fields: &mut Vec<(NameId, Value)>,
    name: NameId,
    value: Value,
) -> Result<(), NoMemory>
    ensures ok { OnOk result (fields.new.items ≡ set_field name value fields.old.items) }
    ensures err { OnErr result (fields.new.items ≡ fields.old.items) }
{
    match place(fields, name) {
        Some(at) => fields[at] = (name, value),
        None => fields.push((name, value))?,
    }
    Ok(())
}

impl Cell {
    /// What the assignment of a copy of the value to a field comes to: stuck, where this is no object.
    pub(crate) fn set_field(
        &mut self,
        alloc: Global,
        name: NameId,
        value: &Value,
    ) -> Result<Outcome, NoMemory>
        ensures ok { IfOk result (λ outcome. (s : State) (k : ℕ) →
            or_stuck (λ o. gives (set_cell s k (ObjectCell (record o { fields = set_field name value.now o.fields }))) value.now) (object_in (Some (cell_of self.old)))
            ≡ outcome_of (set_cell s k (cell_of self.new)) outcome) }
        ensures kept { IfOk result (λ outcome. is_given outcome ≡ false → self.new ≡ self.old) }
        ensures err { OnErr result (cell_of self.new ≡ cell_of self.old) }
    {
        match self {
            Cell::Object(object) => {
                let stored = value.copy(alloc)?;
                let given = value.copy(alloc)?;
                write(&mut object.fields, name, stored)?;
                Ok(Outcome::Gives(given))
            }
            Cell::Array(_) | Cell::Hash(_) | Cell::Channel(_) | Cell::Context(_) => {
                Ok(Outcome::Stuck)
            }
        }
    }
}
