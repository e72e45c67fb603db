ghost use Rattle.std.specs.Prelude.{◌≡◌, ◌<◌, ◌≤◌, ◌↔◌, ◌⊎◌, ◌++◌, List, ℕ, [], length, take, drop, min, Contains, IsErr, IfOk, OnOk, OnErr, Some};
ghost use Rattle.cr_io.specs.Faults.{HasCause, next_count};
ghost use Rattle.cr_io.specs.Sink.{Appends, AppendsFront};
ghost use Rattle.cr_io.specs.MemorySink.{SinkState, with_failure, with_taken};

use crate::sink::Sink;
use crate::source::Failed;
use crate::sure_sink::SureSink;
use cr_base::NoMemory;
use std::alloc::Global;
use std::marker::Model;

/// A sink into memory that takes at most a piece per call and at most the room that is left, and fails at listed
/// calls.
#[derive(Drop)]
pub struct MemorySink {
    inner: SureSink,
    piece: usize,
    failing: Vec<u64>,
    calls: u64,
    faults: u64,
}

impl Model for MemorySink {
    ghost Value = { SinkState };

    ghost view = { λ s. record {
      written = s.inner.written;
      room = s.inner.room;
      piece = s.piece;
      failing = s.failing.items;
      calls = s.calls;
      faults = s.faults;
    } };

    ghost invariant = { λ s. 0 < s.piece };
}

impl MemorySink {
    /// An empty sink with room for so many bytes, which is taken here. A call fails exactly where its number, from 1,
    /// is in `failing` or a piece that is not empty finds no room. It then raises the count of faults by one and takes
    /// nothing.
    pub fn with_room(
        alloc: Global,
        room: usize,
        piece: usize,
        failing: Vec<u64>,
    ) -> Result<MemorySink, NoMemory>
        requires { 1 ≤ piece }
        ensures { IfOk result (λ sink. sink ≡ record { written = []; room = room; piece = piece; failing = failing.items; calls = 0; faults = 0 }) }
    {
        let inner = SureSink::with_room(alloc, room)?;
        Ok(MemorySink {
            inner,
            piece,
            failing,
            calls: 0,
            faults: 0,
        })
    }

    /// What was written.
    pub fn bytes(&self) -> &[u8]
        ensures { result.now ≡ self.now.written }
    {
        self.inner.bytes()
    }

    /// How often it has failed.
    pub fn faults(&self) -> u64
        ensures { result ≡ self.now.faults }
    {
        self.faults
    }
}

impl Sink for MemorySink {
    ghost written = { λ s. Some s.written };

    ghost faults = { λ s. s.faults };

    ghost fits = { λ _ _. Unit {0} };

    fn write(&mut self, bytes: &[u8]) -> Result<usize, Failed>
        ensures within { IfOk result (λ count. count ≤ length bytes.now) }
        ensures some { 0 < length bytes.now → IfOk result (λ count. 0 < count) }
        ensures appends { IfOk result (λ count. Appends (Some self.old.written) (take count bytes.now) (Some self.new.written)) }
        ensures err { OnErr result (AppendsFront (Some self.old.written) bytes.now (Some self.new.written)) }
        ensures cause { HasCause self.old.faults self.new.faults result }
        ensures steady { OnOk result (self.new.faults ≡ self.old.faults) }

        ensures fails { IsErr result ↔ (Contains self.old.failing (next_count self.old.calls) ⊎ ((0 < length bytes.now) × (self.old.room ≡ 0))) }
        ensures takes { IfOk result (λ count. count ≡ min self.old.piece (min self.old.room (length bytes.now))) }
        ensures taken { IfOk result (λ count. self.new ≡ with_taken self.old count bytes.now) }
        ensures failed { OnErr result (self.new ≡ with_failure self.old) }
    {
        self.calls = self.calls.saturating_add(1);
        let room = self.inner.room();
        let is_full = !bytes.is_empty() && room == 0;
        if is_full || self.failing.contains(&self.calls) {
            self.faults = self.faults.saturating_add(1);
            return Err(Failed);
        }
        let count = self.piece.min(room).min(bytes.len());
        self.inner.write(&bytes[..count])
    }

    ghost front_fits = { λ sink text more fits. fits };
}
