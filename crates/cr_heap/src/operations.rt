//! What an array and a hash do, as a cell.
ghost use Rattle.std.specs.Prelude.{◌≡◌, ℕ, false, Some, IfOk, OnErr};
ghost use Rattle.cr_meaning.specs.State.{State, set_cell};
ghost use Rattle.cr_meaning.specs.Builtins.{answers, on_array_cell, on_hash_cell};
ghost use Rattle.cr_heap.specs.Cells.{cell_of};
ghost use Rattle.cr_heap.specs.Parts.{may_change};

use crate::cell::Cell;
use cr_base::NoMemory;
use cr_builtins::{Answer, ArrayOperation, HashOperation};
use cr_value::Value;
use std::alloc::Global;

impl Cell {
    /// What an array does; any other cell is stuck.
    pub(crate) fn array_operation(
        &mut self,
        alloc: Global,
        operation: ArrayOperation,
        arguments: &[Value],
    ) -> Result<Answer, NoMemory>
        ensures ok { IfOk result (λ answer. (s : State) (k : ℕ) →
            on_array_cell s k operation arguments.now (Some (cell_of self.old)) ≡ answers (set_cell s k (cell_of self.new)) k answer) }
        ensures kept { IfOk result (λ answer. may_change answer ≡ false → self.new ≡ self.old) }
        ensures err { OnErr result (self.new ≡ self.old) }
    {
        match self {
            Cell::Array(array) => array.apply(alloc, operation, arguments),
            Cell::Object(_) | Cell::Hash(_) | Cell::Channel(_) | Cell::Context(_) => {
                Ok(Answer::Stuck)
            }
        }
    }

    /// What a hash does; any other cell is stuck.
    pub(crate) fn hash_operation(
        &mut self,
        alloc: Global,
        operation: HashOperation,
        arguments: &[Value],
    ) -> Result<Answer, NoMemory>
        ensures ok { IfOk result (λ answer. (s : State) (k : ℕ) →
            on_hash_cell s k operation arguments.now (Some (cell_of self.old)) ≡ answers (set_cell s k (cell_of self.new)) k answer) }
        ensures kept { IfOk result (λ answer. may_change answer ≡ false → self.new ≡ self.old) }
        ensures err { OnErr result (self.new ≡ self.old) }
    {
        match self {
            Cell::Hash(hash) => hash.apply(alloc, operation, arguments),
            Cell::Object(_) | Cell::Array(_) | Cell::Channel(_) | Cell::Context(_) => {
                Ok(Answer::Stuck)
            }
        }
    }
}
