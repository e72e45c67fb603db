ghost use Rattle.std.specs.Prelude.{◌≡◌, ◌<◌, ◌≤◌, ◌↔◌, ℕ, Bool, false, true, length, is_some, IsErr, IfOk, OnOk, OnErr, None};
ghost use Rattle.cr_io.specs.Faults.{HasCause, next_count};
ghost use Rattle.cr_io.specs.Source.{is_end};
ghost use Rattle.cr_io.specs.StdSource.{InputState};

use crate::source::{Failed, Source};
use std::io::Read;
use std::marker::Model;

/// A source over a file or the standard input, and what the program trusts of the system's reads. It tells no bytes.
#[derive(Drop)]
pub struct StdSource<R: Read + Drop> {
    input: Option<R>,
    met_end: bool,
    faults: u64,
}

impl<R: Read + Drop> Model for StdSource<R> {
    ghost Value = { InputState };

    ghost view = { λ s. record { is_open = is_some s.input; met_end = s.met_end; faults = s.faults } };
}

impl<R: Read + Drop> StdSource<R> {
    /// Over this input, or over a file that could not be opened: then each read fails.
    pub fn new(input: Option<R>) -> StdSource<R>
        ensures { result ≡ record { is_open = is_some input; met_end = false; faults = 0 } }
    {
        StdSource {
            input,
            met_end: false,
            faults: 0,
        }
    }

    /// How often it has failed.
    pub fn faults(&self) -> u64
        ensures { result ≡ self.now.faults }
    {
        self.faults
    }
}

impl<R: Read + Drop> Source for StdSource<R> {
    ghost left = { λ _. None };

    ghost met_end = { λ s. s.met_end };

    ghost faults = { λ s. s.faults };

    fn read(&mut self, buf: &mut [u8]) -> Result<usize, Failed>
        ensures within { IfOk result (λ count. count ≤ length buf.old) }
        ensures end { 0 < length buf.old → self.new.met_end ≡ is_end result }
        ensures no_room { length buf.old ≡ 0 → self.new.met_end ≡ self.old.met_end }
        ensures cause { HasCause self.old.faults self.new.faults result }
        ensures steady { OnOk result (self.new.faults ≡ self.old.faults) }

        ensures closed { self.old.is_open ≡ false → IsErr result }
        ensures same { self.new.is_open ≡ self.old.is_open }
        ensures err { OnErr result (self.new.faults ≡ next_count self.old.faults) }
    {
        let answer = read_from(&mut self.input, buf);
        if answer.is_err() {
            self.faults = self.faults.saturating_add(1);
        }
        if !buf.is_empty() {
            self.met_end = answer == Ok(0);
        }
        answer
    }
}

fn read_from<R: Read + Drop>(input: &mut Option<R>, buf: &mut [u8]) -> Result<usize, Failed>
    ensures within { IfOk result (λ count. count ≤ length buf.old) }
    ensures closed { is_some input.old ≡ false → IsErr result }
    ensures same { is_some input.new ≡ is_some input.old }
{
    match input {
        Some(input) => input.read(buf).map_err(|_| Failed),
        None => Err(Failed),
    }
}
