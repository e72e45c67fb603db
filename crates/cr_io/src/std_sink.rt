ghost use Rattle.std.specs.Prelude.{◌≡◌, ◌<◌, ◌≤◌, ◌↔◌, ℕ, Bool, false, true, length, is_some, IsErr, IfOk, OnOk, OnErr, None};
ghost use Rattle.cr_io.specs.Faults.{HasCause, next_count};
ghost use Rattle.cr_io.specs.StdSink.{OutputState};

use crate::sink::Sink;
use crate::source::Failed;
use std::io::Write;
use std::marker::Model;

/// A sink over a file or a standard stream, and what the program trusts of the system's writes. It tells no bytes and
/// keeps none back: each write is one write of the system.
#[derive(Drop)]
pub struct StdSink<W: Write + Drop> {
    output: Option<W>,
    faults: u64,
}

impl<W: Write + Drop> Model for StdSink<W> {
    ghost Value = { OutputState };

    ghost view = { λ s. record { is_open = is_some s.output; faults = s.faults } };
}

impl<W: Write + Drop> StdSink<W> {
    /// Over this output, or over a file that could not be opened: then each write fails.
    pub fn new(output: Option<W>) -> StdSink<W>
        ensures { result ≡ record { is_open = is_some output; faults = 0 } }
    {
        StdSink { output, faults: 0 }
    }

    /// How often it has failed.
    pub fn faults(&self) -> u64
        ensures { result ≡ self.now.faults }
    {
        self.faults
    }
}

impl<W: Write + Drop> Sink for StdSink<W> {
    ghost written = { λ _. None };

    ghost faults = { λ s. s.faults };

    ghost fits = { λ _ _. Unit {0} };

    fn write(&mut self, bytes: &[u8]) -> Result<usize, Failed>
        ensures within { IfOk result (λ count. count ≤ length bytes.now) }
        ensures some { 0 < length bytes.now → IfOk result (λ count. 0 < count) }
        ensures cause { HasCause self.old.faults self.new.faults result }
        ensures steady { OnOk result (self.new.faults ≡ self.old.faults) }

        ensures closed { self.old.is_open ≡ false → IsErr result }
        ensures same { self.new.is_open ≡ self.old.is_open }
        ensures err { OnErr result (self.new.faults ≡ next_count self.old.faults) }
    {
        let answer = write_to(&mut self.output, bytes);
        if answer.is_err() {
            self.faults = self.faults.saturating_add(1);
        }
        answer
    }

    ghost front_fits = { λ sink text more fits. fits };
}

// A write of nothing, which a sink may not answer for bytes that are there, counts as a fault.
fn write_to<W: Write + Drop>(output: &mut Option<W>, bytes: &[u8]) -> Result<usize, Failed>
    ensures within { IfOk result (λ count. count ≤ length bytes.now) }
    ensures some { 0 < length bytes.now → IfOk result (λ count. 0 < count) }
    ensures closed { is_some output.old ≡ false → IsErr result }
    ensures same { is_some output.new ≡ is_some output.old }
{
    let Some(output) = output else {
        return Err(Failed);
    };
    match output.write(bytes) {
        Ok(0) if !bytes.is_empty() => Err(Failed),
        Ok(count) => Ok(count),
        Err(_) => Err(Failed),
    }
}
