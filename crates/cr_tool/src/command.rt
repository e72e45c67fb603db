// The one call that does what a command line says.
ghost use Rattle.std.specs.Prelude.{◌≡◌, List, ℕ};
ghost use Rattle.cr_tool.specs.Words.{Says};
ghost use Rattle.cr_tool.specs.declared.words.Words.{Words as Said};
ghost use Rattle.cr_tool.specs.Outside.{reading, writing};
ghost use Rattle.cr_tool.specs.Tool.{IsAnswer};
ghost use Rattle.cr_tool.specs.Reported.{ending_of};

use crate::ending::Ending;
use crate::laws::refusals_are_exact;
use crate::reading_words::read_words;
use crate::report::{Ended, Ran, make_report};
use crate::running::run_command;
use crate::still::still_command;
use crate::words::{Words, WordsFault};
use cr_io::{Gate, Sink, Source};
use cr_schedule::History;
use cr_value::Text;
use std::alloc::Global;
use std::sync::Wait;
use std::thread::Threads;

/// The ending of words that are not read.
fn ending_of(fault: WordsFault) -> Ending
    ensures { result ≡ ending_of fault }
{
    match fault {
        WordsFault::Usage => Ending::Usage,
        WordsFault::NoMemory => Ending::NoMemory,
    }
}

/// Does what the words of a command line say, over this source and these sinks, and reports on it. `Usage` exactly
/// where the words are no command line; then nothing is read and nothing written but the closing line. It may wait, and
/// promises its clauses if it returns.
pub fn tool<
    Rt: Threads + Wait + Sync,
    S: Source,
    T: Source,
    K: Sink + Send + Drop,
    E: Sink + Send + Drop,
    R: Sink,
    G: Gate,
>(
    rt: &Rt,
    alloc: Global,
    words: &[Text],
    source: &mut S,
    old_trace: &mut T,
    out: K,
    err: E,
    new_trace: &mut R,
    gate: &G,
) -> Ran<K, E>
    requires out_fits { (sink : K) (text : List ℕ) → K.fits sink text }
    requires err_fits { (sink : E) (text : List ℕ) → E.fits sink text }
    ensures answer { IsAnswer words.now (record {
      source = reading S.Source source.old source.new;
      old_trace = reading T.Source old_trace.old old_trace.new;
      out = writing K.Sink out result.out;
      err = writing E.Sink err result.err;
      new_trace = writing R.Sink new_trace.old new_trace.new;
    }) result.report }
    ensures unread { ((said : Said) → Says words.now said → ⊥) → source.new ≡ source.old }
    ensures old_trace { old_trace.new ≡ old_trace.old }
    ensures new_trace { new_trace.new ≡ new_trace.old }
{
    match read_words(alloc, words) {
        Ok(Words::Run(run)) => run_command(rt, alloc, &run, source, out, err, new_trace, gate),
        Ok(Words::Still(still)) => {
            let mut out = out;
            let mut err = err;
            let report = still_command(alloc, &still, source, old_trace, &mut out, &mut err);
            Ran { report, out, err }
        }
        Err(fault) => {
            refusals_are_exact();
            let mut err = err;
            let ended = Ended::new(alloc, ending_of(fault), History::new(alloc));
            let report = make_report(&mut err, ended);
            Ran { report, out, err }
        }
    }
}
