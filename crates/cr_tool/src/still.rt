// The still commands, which run nothing: a source is read, and what the command tells of its program is written.
ghost use Rattle.std.specs.Prelude.{◌≡◌, ◌≤◌, List, ℕ, length, IfOk};
ghost use Rattle.cr_source.specs.Source.{Answers};
ghost use Rattle.cr_tool.specs.Outside.{Writing, reading, writing, source_limit};
ghost use Rattle.cr_tool.specs.Still.{still_text, CauseOfTelling, IsStillReport};
ghost use Rattle.cr_tool.specs.Telling.{TellsOf, HasTold, IsTold};

use crate::ending::{Closed, Ending, Which};
use crate::laws::refusals_are_exact;
use crate::opening::{read_source, refuse_program};
use crate::report::{Ended, Report, make_report};
use crate::words::{Still, StillWords};
use cr_base::NoMemory;
use cr_grammar::Tree;
use cr_io::{Sink, Source, put_all};
use cr_pretty::write_tree;
use cr_schedule::History;
use cr_source::{SourceFault, program_of};
use sqlite_items::Boxed;
use std::alloc::Global;
use std::mem::ManuallyDrop;

/// What a command tells of a program.
#[tactic(auto, unfolding(crate::specs::Still::still_text))]
fn text_of(alloc: Global, command: Still, tree: &Tree) -> Result<Vec<u8>, NoMemory>
    ensures { IfOk result (λ text. text.items ≡ still_text command tree.now) }
{
    match command {
        Still::Format => write_tree(alloc, tree),
    }
}

/// The program of a source.
fn program(alloc: Global, source: &[u8]) -> Result<Boxed<Tree>, SourceFault>
    requires short { length source.now ≤ source_limit }
    ensures { Answers source.now result }
{
    match program_of(alloc, source) {
        Ok(tree) => match Boxed::new(alloc, tree) {
            Ok(tree) => Ok(tree),
            Err(_) => Err(SourceFault::NoMemory),
        },
        Err(fault) => Err(fault),
    }
}

/// What a command tells of the program of a source, or why there is none.
fn told(alloc: Global, command: Still, source: &[u8]) -> Result<Vec<u8>, SourceFault>
    requires short { length source.now ≤ source_limit }
    ensures { TellsOf command source.now result }
{
    // The command is done with its text, and what ends gives its memory back at once.
    let tree = ManuallyDrop::new(program(alloc, source)?);
    match text_of(alloc, command, tree.get()) {
        Ok(text) => Ok(text),
        Err(_) => Err(SourceFault::NoMemory),
    }
}

/// Writes what is told.
fn put<K: Sink>(out: &mut K, text: &[u8]) -> Ending
    requires fits { (sink : K) (text : List ℕ) → K.fits sink text }
    ensures { CauseOfTelling result text.now (writing K.Sink out.old out.new) }
{
    match put_all(out, text) {
        Ok(()) => Ending::Told,
        Err(_) => Ending::WriteFault(Which::Out),
    }
}

/// Writes what the command tells of the program of a source, or refuses the source.
fn tell_source<K: Sink>(alloc: Global, command: Still, source: &[u8], out: &mut K) -> Closed
    requires short { length source.now ≤ source_limit }
    requires fits { (sink : K) (text : List ℕ) → K.fits sink text }
    ensures { HasTold command source.now (writing K.Sink out.old out.new) result }
{
    match told(alloc, command, source) {
        Ok(text) => Closed::new(alloc, put(out, &text)),
        Err(fault) => refuse_program(alloc, source, fault),
    }
}

/// Reads a source, and writes what the command tells of its program.
fn tell<S: Source, K: Sink>(alloc: Global, command: Still, source: &mut S, out: &mut K) -> Closed
    requires fits { (sink : K) (text : List ℕ) → K.fits sink text }
    ensures { IsTold command (reading S.Source source.old source.new) (writing K.Sink out.old out.new) result }
{
    match read_source(alloc, source) {
        Ok(bytes) => tell_source(alloc, command, &bytes, out),
        Err(closed) => closed,
    }
}

/// Does what a still command says, over this source and these sinks, and reports on it. The old trace is not read.
pub fn still_command<S: Source, T: Source, K: Sink, E: Sink>(
    alloc: Global,
    words: &StillWords,
    source: &mut S,
    old_trace: &mut T,
    out: &mut K,
    err: &mut E,
) -> Report
    requires out_fits { (sink : K) (text : List ℕ) → K.fits sink text }
    requires err_fits { (sink : E) (text : List ℕ) → E.fits sink text }
    ensures report { (new_trace : Writing) → IsStillReport words.now.command (record {
      source = reading S.Source source.old source.new;
      old_trace = reading T.Source old_trace.old old_trace.new;
      out = writing K.Sink out.old out.new;
      err = writing E.Sink err.old err.new;
      new_trace = new_trace;
    }) result }
    ensures old_trace { old_trace.new ≡ old_trace.old }
{
    refusals_are_exact();
    let closed = tell(alloc, words.command, source, out);
    let history = History::new(alloc);
    make_report(err, Ended { closed, history })
}
