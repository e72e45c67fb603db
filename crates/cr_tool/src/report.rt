// What a command came to, and the report on it.
ghost use Rattle.std.specs.Prelude.{◌≡◌, [], List, ℕ, string_bytes};
ghost use Rattle.cr_tool.specs.Outside.{writing};
ghost use Rattle.cr_tool.specs.Reported.{IsFinished};

use crate::ending::{Closed, Ending, status_of};
use cr_io::{Sink, put_all};
use cr_schedule::History;
use std::alloc::Global;

/// What a command came to: its ending, the line where that is a refusal, and the history of its run.
#[derive(Debug, Drop)]
pub struct Ended {
    pub closed: Closed,
    pub history: History,
}

impl Ended {
    /// An ending that is no refusal.
    pub fn new(alloc: Global, ending: Ending, history: History) -> Self
        ensures ending { result.closed.ending ≡ ending }
        ensures line { string_bytes result.closed.line ≡ [] }
        ensures history { result.history ≡ history }
    {
        Ended {
            closed: Closed::new(alloc, ending),
            history,
        }
    }
}

/// What a command says of itself at its end.
#[derive(Debug, Drop)]
pub struct Report {
    /// The exit status, which is the ending's number.
    pub status: u8,
    pub ending: Ending,
    /// The history of the run; empty where none began.
    pub history: History,
}

/// A report, and the two sinks that the command was lent.
#[derive(Drop)]
pub struct Ran<K, E> {
    pub report: Report,
    pub out: K,
    pub err: E,
}

/// Writes the closing line, and makes the report. A fault while it is written changes nothing.
pub fn make_report<E: Sink>(err: &mut E, ended: Ended) -> Report
    requires fits { (sink : E) (text : List ℕ) → E.fits sink text }
    ensures { IsFinished ended (writing E.Sink err.old err.new) result }
{
    let Ended { closed, history } = ended;
    let _ = put_all(err, closed.text().as_bytes());
    Report {
        status: status_of(closed.ending),
        ending: closed.ending,
        history,
    }
}
