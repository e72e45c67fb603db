ghost use Rattle.std.specs.Prelude.{◌≡◌, ◌<◌, ◌≤◌, ◌↔◌, List, ℕ, Bool, [], false, length, take, drop, min, Contains, IsErr, IfOk, OnOk, OnErr, Some};
ghost use Rattle.cr_io.specs.Faults.{HasCause, next_count};
ghost use Rattle.cr_io.specs.Source.{Moves, is_end};
ghost use Rattle.cr_io.specs.MemorySource.{SourceState, with_failure, with_moved};

use crate::source::{Failed, Source};
use crate::sure_source::SureSource;
use std::alloc::Global;
use std::marker::Model;

/// A source over bytes in memory that gives at most a piece per call and fails at listed calls.
#[derive(Drop)]
pub struct MemorySource {
    inner: SureSource,
    met_end: bool,
    piece: usize,
    failing: Vec<u64>,
    calls: u64,
    faults: u64,
}

impl Model for MemorySource {
    ghost Value = { SourceState };

    ghost view = { λ s. record {
      left = s.inner.left;
      met_end = s.met_end;
      piece = s.piece;
      failing = s.failing.items;
      calls = s.calls;
      faults = s.faults;
    } };

    ghost invariant = { λ s. 0 < s.piece };
}

impl MemorySource {
    /// Exactly the calls whose numbers, from 1, are in `failing` fail. They raise the count of faults by one and
    /// move nothing.
    pub fn new(alloc: Global, bytes: Vec<u8>, piece: usize, failing: Vec<u64>) -> MemorySource
        requires { 1 ≤ piece }
        ensures { result ≡ record { left = bytes.items; met_end = false; piece = piece; failing = failing.items; calls = 0; faults = 0 } }
    {
        MemorySource {
            inner: SureSource::new(alloc, bytes),
            met_end: false,
            piece,
            failing,
            calls: 0,
            faults: 0,
        }
    }

    /// How often it has failed.
    pub fn faults(&self) -> u64
        ensures { result ≡ self.now.faults }
    {
        self.faults
    }
}

impl Source for MemorySource {
    ghost left = { λ s. Some s.left };

    ghost met_end = { λ s. s.met_end };

    ghost faults = { λ s. s.faults };

    fn read(&mut self, buf: &mut [u8]) -> Result<usize, Failed>
        ensures within { IfOk result (λ count. count ≤ length buf.old) }
        ensures moves { IfOk result (λ count. Moves self.old.left count buf.new (Some self.new.left)) }
        ensures end { 0 < length buf.old → self.new.met_end ≡ is_end result }
        ensures no_room { length buf.old ≡ 0 → self.new.met_end ≡ self.old.met_end }
        ensures at_end { 0 < length buf.old → result ≡ Ok 0 → self.old.left ≡ [] }
        ensures cause { HasCause self.old.faults self.new.faults result }
        ensures steady { OnOk result (self.new.faults ≡ self.old.faults) }

        ensures fails { IsErr result ↔ Contains self.old.failing (next_count self.old.calls) }
        ensures gives { IfOk result (λ count. count ≡ min self.old.piece (min (length buf.old) (length self.old.left))) }
        ensures rest { IfOk result (λ count. drop count buf.new ≡ drop count buf.old) }
        ensures moved { IfOk result (λ count. self.new ≡ with_moved self.old count self.new.met_end) }
        ensures failed { OnErr result (self.new ≡ with_failure self.old self.new.met_end) }
        ensures nothing { OnErr result (buf.new ≡ buf.old) }
    {
        self.calls = self.calls.saturating_add(1);
        if self.failing.contains(&self.calls) {
            self.faults = self.faults.saturating_add(1);
            if !buf.is_empty() {
                self.met_end = false;
            }
            return Err(Failed);
        }
        let most = self.piece.min(buf.len());
        let count = self.inner.read(&mut buf[..most])?;
        if !buf.is_empty() {
            self.met_end = count == 0;
        }
        Ok(count)
    }
}
