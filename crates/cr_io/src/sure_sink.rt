ghost use Rattle.std.specs.Prelude.{◌≡◌, ◌<◌, ◌≤◌, ◌++◌, List, ℕ, [], length, take, drop, IfOk, OnErr, IfOk, Some};
ghost use Rattle.cr_io.specs.Faults.{HasCause};
ghost use Rattle.cr_io.specs.Sink.{Appends, AppendsFront};
ghost use Rattle.cr_io.specs.SureSink.{Written, with_front};

use crate::sink::Sink;
use crate::source::Failed;
use cr_base::NoMemory;
use std::alloc::Global;
use std::marker::Model;

/// A sink into memory that never fails: it takes only texts that fit the room that is left.
#[derive(Drop)]
pub struct SureSink {
    bytes: Vec<u8>,
    room: usize,
}

impl Model for SureSink {
    ghost use Rattle.std.specs.Prelude.{◌+◌, ◌≤◌, vec_len, vec_capacity};
    ghost use Rattle.cr_io.specs.SureSink.{Written};

    ghost Value = { Written };

    ghost view = { λ s. record { written = s.bytes.items; room = s.room } };

    ghost invariant = { λ s. vec_len s.bytes + s.room ≤ vec_capacity s.bytes };
}

impl SureSink {
    /// An empty sink with room for so many bytes, which is taken here.
    pub fn with_room(alloc: Global, room: usize) -> Result<SureSink, NoMemory>
        ensures { IfOk result (λ sink. sink ≡ record { written = []; room = room }) }
    {
        let bytes = Vec::with_capacity(alloc, room)?;
        Ok(SureSink { bytes, room })
    }

    /// What was written.
    pub fn bytes(&self) -> &[u8]
        ensures { result.now ≡ self.now.written }
    {
        self.bytes.as_slice()
    }

    /// How many more bytes it takes.
    pub fn room(&self) -> usize
        ensures { result ≡ self.now.room }
    {
        self.room
    }
}

impl Sink for SureSink {
    ghost use Rattle.std.proofs.Common.{arith, length-append};

    ghost written = { λ s. Some s.written };

    ghost faults = { λ _. 0 };

    ghost fits = { λ s text. length text ≤ s.room };

    fn write(&mut self, bytes: &[u8]) -> Result<usize, Failed>
        requires { length bytes.now ≤ self.old.room }
        ensures within { IfOk result (λ count. count ≤ length bytes.now) }
        ensures some { 0 < length bytes.now → IfOk result (λ count. 0 < count) }
        ensures appends { IfOk result (λ count. Appends (Some self.old.written) (take count bytes.now) (Some self.new.written)) }
        ensures err { OnErr result (AppendsFront (Some self.old.written) bytes.now (Some self.new.written)) }
        ensures room { (more : List ℕ) → length (bytes.now ++ more) ≤ self.old.room → IfOk result (λ count. length (drop count bytes.now ++ more) ≤ self.new.room) }
        ensures cause { HasCause 0 0 result }

        ensures all { result ≡ Ok (length bytes.now) }
        ensures after { self.new ≡ with_front self.old (length bytes.now) bytes.now }
    {
        // It can't fail, because the room was taken when the sink was made.
        let _ = self.bytes.extend_from_slice(bytes);
        self.room -= bytes.len();
        Ok(bytes.len())
    }

    ghost front_fits = { λ sink text more fits. Prim.omega (arith, length-append text more) };
}
