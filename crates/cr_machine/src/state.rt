//! The state of a run, and the calls that only read it.
ghost use Rattle.std.specs.Prelude.{◌≡◌, length, slice_get, IfOk};
ghost use Rattle.std.specs.Option.{option_copied, option_map};
ghost use Rattle.cr_meaning.specs.World.{World};
ghost use Rattle.cr_meaning.specs.Channels.{channel_at};
ghost use Rattle.cr_meaning.specs.Run.{start};
ghost use Rattle.cr_fibers.specs.Held.{look_of};
ghost use Rattle.cr_heap.specs.Cells.{cell_of};
ghost use Rattle.cr_machine.specs.Machine.{state_of, AreNeat, IsWorldOf};

use crate::contexts::{Context, ContextKind};
use cr_base::{CellId, FiberId, NoMemory};
use cr_core::{CoreTree, ScopeId};
use cr_fibers::{Fiber, FiberLook};
use cr_heap::{Cell, Heap};
use cr_items::Items;
use std::alloc::Global;
use std::marker::Model;

/// The state of a run. What it stands for is told of each world: its terms are those of the program.
#[derive(Drop)]
pub struct State {
    fibers: Vec<Fiber>,
    heap: Heap,
    contexts: Vec<Context>,
    output: Vec<u8>,
    errors: Vec<u8>,
}

impl Model for State {
    ghost use Rattle.std.specs.Prelude.{◌≤◌, length, map};
    ghost use Rattle.cr_meaning.specs.Limits.{most_fibers};
    ghost use Rattle.cr_machine.specs.Machine.{Machine, context_of};

    ghost Value = { Machine };

    ghost view = { λ s. record { fibers = s.fibers.items; cells = s.heap; contexts = map context_of s.contexts.items; output = s.output.items; errors = s.errors.items } };

    ghost invariant = { λ s. length s.fibers.items ≤ most_fibers };
}

impl State {
    /// All that was written. Takes no memory.
    pub fn output(&self) -> &[u8]
        ensures { (P : World) → result.now ≡ (state_of P self.now).output }
    {
        self.output.as_slice()
    }

    /// The lines of the exceptions that ended fibers. Takes no memory.
    pub fn errors(&self) -> &[u8]
        ensures { (P : World) → result.now ≡ (state_of P self.now).errors }
    {
        self.errors.as_slice()
    }

    /// How many fibers were made, main included. Takes no memory.
    pub fn fibers(&self) -> u32
        ensures { (P : World) → result ≡ length (state_of P self.now).fibers }
    {
        self.fibers.len() as u32
    }

    /// The context and the status of a fiber: `None` exactly where it was not made. Takes no memory.
    pub fn fiber(&self, f: FiberId) -> Option<FiberLook>
        ensures { (P : World) → result ≡ look_of (slice_get (state_of P self.now).fibers f.0) }
    {
        let fiber = self.fibers.get(f.0 as usize)?;
        Some(fiber.look())
    }

    /// A cell: `None` exactly where it was not made. Takes no memory.
    pub fn cell(&self, at: CellId) -> Option<&Cell>
        ensures { (P : World) → option_map cell_of (option_copied result) ≡ slice_get (state_of P self.now).cells at.0 }
    {
        self.heap.cell(at)
    }

    /// A channel: `None` exactly where this cell is no channel. Takes no memory.
    pub fn channel(&self, at: CellId) -> Option<&Items>
        ensures { (P : World) → option_copied result ≡ channel_at (state_of P self.now) at.0 }
    {
        self.heap.channel(at)
    }
}

/// The state in which a run of a program begins: main is the only fiber, and current in the default context, which is concurrent. It
/// is done where it has nothing to reduce.
pub fn start(alloc: Global, tree: &CoreTree) -> Result<State, NoMemory>
    ensures state { IfOk result (λ s. (P : World) → IsWorldOf P tree.now → state_of P s ≡ start P) }
    ensures neat { IfOk result (λ s. AreNeat tree.now.rows s) }
{
    let rows = tree.rows();
    let main = Fiber::main(alloc, rows, tree.scope(ScopeId(0)))?;
    let mut fibers = Vec::new(alloc);
    fibers.push(main)?;
    let mut contexts = Vec::new(alloc);
    contexts.push(Context {
        kind: ContextKind::Concurrent,
        size: 1,
    })?;
    Ok(State {
        fibers,
        heap: Heap::new(alloc),
        contexts,
        output: Vec::new(alloc),
        errors: Vec::new(alloc),
    })
}
