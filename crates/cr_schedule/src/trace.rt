// The text of a history.
ghost use Rattle.std.specs.Prelude.{◌≡◌, ◌++◌, List, ℕ, OnOk, OnErr};
ghost use Rattle.cr_io.specs.Faults.{HasCause};
ghost use Rattle.cr_io.specs.Sink.{Appends, AppendsFront};
ghost use Rattle.cr_schedule.specs.declared.entry.Entry.{Entry};
ghost use Rattle.cr_schedule.specs.Trace.{trace, IsTrace, IsFirstBad, Answers};

use crate::history::History;
use crate::page::{Page, make_room};
use crate::trace_line::first_entry;
use cr_base::NoMemory;
use cr_io::{Failed, Sink, put_all};
use std::alloc::Global;

/// Why a text gives no history.
#[derive(Clone, Copy, Debug, PartialEq, Eq)]
pub enum TraceFault {
    /// The first line that is no entry's, from 1. A last line without its line feed is none.
    BadLine(u64),
    /// Want of memory.
    NoMemory,
}

impl From<NoMemory> for TraceFault {
    ghost use Rattle.std.specs.Prelude.{◌≡◌};
    ghost use Rattle.cr_schedule.specs.declared.trace.TraceFault.{TraceFault};

    ghost from_gives = { λ _ fault. fault ≡ TraceFault.NoMemory };

    fn from(_: NoMemory) -> Self {
        TraceFault::NoMemory
    }
}

/// The history whose trace the bytes are.
pub fn read_trace(alloc: Global, bytes: &[u8]) -> Result<History, TraceFault>
    ensures answer { Answers result (IsTrace bytes.now) (IsFirstBad bytes.now) }

    // What is a trace is read, and what has a bad line is refused there, unless memory runs out.
    ensures read { (entries : List Entry) → IsTrace bytes.now entries
        → Answers result (λ found. found ≡ entries) (λ _. ⊥) }
    ensures refused { (number : ℕ) → IsFirstBad bytes.now number
        → Answers result (λ _. ⊥) (λ found. found ≡ number) }
{
    let mut history = History::new(alloc);
    let mut rest = bytes;
    while !rest.is_empty() {
        let Some((entry, after)) = first_entry(rest) else {
            return Err(TraceFault::BadLine(history.length() + 1));
        };
        history.push(entry)?;
        rest = after;
    }
    Ok(history)
}

/// One text is the trace of at most one history. It has at most one first bad line, and none where it is a trace.
pub fn one_history()
    ensures history { (bytes : List ℕ) (one other : List Entry)
        → IsTrace bytes one → IsTrace bytes other → one ≡ other }
    ensures bad_line { (bytes : List ℕ) (one other : ℕ)
        → IsFirstBad bytes one → IsFirstBad bytes other → one ≡ other }
    ensures not_both { (bytes : List ℕ) (entries : List Entry) (number : ℕ)
        → IsTrace bytes entries → IsFirstBad bytes number → ⊥ }
{}

/// Writes the trace of a history. After `Failed` the sink has its old bytes and a front of the trace.
/// Takes no memory.
pub fn write_trace<R: Sink>(sink: &mut R, history: &History) -> Result<(), Failed>
    requires { R.fits sink.old (trace history.now.entries) }
    ensures ok { OnOk result
        (Appends (R.written sink.old) (trace history.now.entries) (R.written sink.new)) }
    ensures err { OnErr result
        (AppendsFront (R.written sink.old) (trace history.now.entries) (R.written sink.new)) }

    // The room for what comes after the trace is there still.
    ensures room { (more : List ℕ) → R.fits sink.old (trace history.now.entries ++ more)
        → OnOk result (R.fits sink.new more) }
    ensures cause { HasCause (R.faults sink.old) (R.faults sink.new) result }
    ensures steady { OnOk result (R.faults sink.new ≡ R.faults sink.old) }
{
    let mut page = Page::new();
    for at in 0..history.length() {
        make_room(sink, &mut page)?;
        page.push_entry(history.entry(at));
    }
    put_all(sink, page.text())
}
