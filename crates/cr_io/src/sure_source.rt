ghost use Rattle.std.specs.Prelude.{◌≡◌, ◌<◌, ◌≤◌, ◌++◌, List, ℕ, Bool, [], false, length, take, drop, min, IfOk, IsOk, Some};
ghost use Rattle.cr_io.specs.Faults.{HasCause};
ghost use Rattle.cr_io.specs.Source.{Moves, is_end};
ghost use Rattle.cr_io.specs.SureSource.{Unread};

use crate::source::{Failed, Source};
use std::alloc::Global;
use std::marker::Model;

/// A source over bytes in memory that never fails.
#[derive(Drop)]
pub struct SureSource {
    bytes: Vec<u8>,
    at: usize,
    met_end: bool,
}

impl Model for SureSource {
    ghost Value = { Unread };

    ghost view = { λ s. record { left = drop s.at s.bytes.items; met_end = s.met_end } };

    ghost invariant = { λ s. s.at ≤ length s.bytes.items };
}

impl SureSource {
    pub fn new(_alloc: Global, bytes: Vec<u8>) -> SureSource
        ensures { result ≡ record { left = bytes.items; met_end = false } }
    {
        SureSource {
            bytes,
            at: 0,
            met_end: false,
        }
    }
}

impl Source for SureSource {
    ghost left = { λ s. Some s.left };

    ghost met_end = { λ s. s.met_end };

    ghost faults = { λ _. 0 };

    fn read(&mut self, buf: &mut [u8]) -> Result<usize, Failed>
        ensures within { IfOk result (λ count. count ≤ length buf.old) }
        ensures moves { IfOk result (λ count. Moves self.old.left count buf.new (Some self.new.left)) }
        ensures end { 0 < length buf.old → self.new.met_end ≡ is_end result }
        ensures no_room { length buf.old ≡ 0 → self.new.met_end ≡ self.old.met_end }
        ensures at_end { 0 < length buf.old → result ≡ Ok 0 → self.old.left ≡ [] }
        ensures cause { HasCause 0 0 result }

        ensures gives { result ≡ Ok (min (length buf.old) (length self.old.left)) }
        ensures rest { IfOk result (λ count. drop count buf.new ≡ drop count buf.old) }
    {
        let left = &self.bytes[self.at..];
        let count = buf.len().min(left.len());
        buf[..count].copy_from_slice(&left[..count]);
        if !buf.is_empty() {
            self.met_end = count == 0;
        }
        self.at += count;
        Ok(count)
    }
}
