// The command `run`: a source is read, and its program is run.
ghost use Rattle.std.specs.Prelude.{◌≡◌, ◌≢◌, ◌≤◌, ◌*◌, ◌++◌, List, ℕ, length};
ghost use Rattle.std.specs.List.{AllByRecursion};
ghost use Rattle.cr_tool.specs.declared.words.Words.TheVariants as said;
ghost use Rattle.cr_tool.specs.Sums.{HasForm, most_lines};
ghost use Rattle.cr_tool.specs.Words.{Says};
ghost use Rattle.cr_tool.specs.Writing.{history_of};
ghost use Rattle.cr_tool.specs.Outside.{Reading, reading, writing};
ghost use Rattle.cr_tool.specs.Run.{IsReport};
ghost use Rattle.cr_tool.specs.Ended.{ending_of, IsEndOfRun};
ghost use Rattle.cr_tool.specs.Reported.{IsEnded};

use crate::ending::{Ending, Which};
use crate::evaluation::{Stop, evaluate};
use crate::laws::refusals_are_exact;
use crate::opening::open;
use crate::report::{Ended, Ran, make_report};
use crate::sums::Line;
use crate::words::RunWords;
use cr_base::FiberId;
use cr_io::{Gate, Sink, Source};
use cr_schedule::{Entry, History};
use std::alloc::Global;
use std::sync::Wait;
use std::thread::Threads;

/// Puts the reductions of main into the history, but the one that would go on behind the last statement.
fn record(history: &mut History, turns: u32)
    requires room { 1 ≤ history.old.spare }
    requires bound { turns ≤ 3 * most_lines }
    requires whole { turns ≢ 1 }
    ensures { history.new.entries ≡ history.old.entries ++ history_of turns }
{
    if turns > 0 {
        history.push_reserved(Entry::Steps {
            fiber: FiberId(0),
            count: turns - 1,
            clause: None,
            partner: None,
            partner_clause: None,
        });
    }
}

/// The ending of an evaluation that stopped for this reason.
fn ending_of(stop: Option<Stop>) -> Ending
    ensures { result ≡ ending_of stop }
{
    match stop {
        None => Ending::Finished,
        Some(Stop::NoMemory) => Ending::NoMemory,
        Some(Stop::Failed) => Ending::WriteFault(Which::Out),
    }
}

/// Runs the program of these lines.
pub fn run_lines<K: Sink>(alloc: Global, lines: &[Line], out: &mut K) -> Ended
    requires form { AllByRecursion HasForm lines.now }
    requires few { length lines.now ≤ most_lines }
    requires fits { (sink : K) (text : List ℕ) → K.fits sink text }
    ensures { IsEndOfRun lines.now (writing K.Sink out.old out.new) result }
{
    let mut history = History::new(alloc);
    if history.reserve(1).is_err() {
        return Ended::new(alloc, Ending::NoMemory, history);
    }
    let evaluated = evaluate(alloc, lines, out);
    record(&mut history, evaluated.turns);
    Ended::new(alloc, ending_of(evaluated.stop), history)
}

/// Reads a source and runs its program.
fn read_and_run<S: Source, K: Sink>(alloc: Global, source: &mut S, out: &mut K) -> Ended
    requires fits { (sink : K) (text : List ℕ) → K.fits sink text }
    ensures { IsEnded (reading S.Source source.old source.new) (writing K.Sink out.old out.new) result }
{
    match open(alloc, source) {
        Ok(lines) => run_lines(alloc, &lines, out),
        Err(closed) => Ended {
            closed,
            history: History::new(alloc),
        },
    }
}

/// Runs the program of a source with these words, which are such as `read_words` gives. It may wait, and promises
/// its clause if it returns. The trace is written to `new_trace` only where the words ask for one.
pub fn run_command<
    Rt: Threads + Wait + Sync,
    S: Source,
    K: Sink + Send + Drop,
    E: Sink + Send + Drop,
    R: Sink,
    G: Gate,
>(
    rt: &Rt,
    alloc: Global,
    words: &RunWords,
    source: &mut S,
    out: K,
    err: E,
    new_trace: &mut R,
    gate: &G,
) -> Ran<K, E>
    requires words { (line : List (List ℕ)) × Says line (said.Run words.now) }
    requires out_fits { (sink : K) (text : List ℕ) → K.fits sink text }
    requires err_fits { (sink : E) (text : List ℕ) → E.fits sink text }
    ensures report { (old_trace : Reading) → IsReport words.now.budget (record {
      source = reading S.Source source.old source.new;
      old_trace = old_trace;
      out = writing K.Sink out result.out;
      err = writing E.Sink err result.err;
      new_trace = writing R.Sink new_trace.old new_trace.new;
    }) result.report }
    ensures trace { new_trace.new ≡ new_trace.old }
{
    refusals_are_exact();
    let mut out = out;
    let mut err = err;
    let ended = read_and_run(alloc, source, &mut out);
    let report = make_report(&mut err, ended);
    Ran { report, out, err }
}
