// Reading a source, and the ending of one that is refused.
ghost use Rattle.std.specs.Prelude.{◌≡◌, ◌≤◌, ℕ, length, MatchOption, Err};
ghost use Rattle.cr_grammar.specs.declared.tree.Tree.{Tree};
ghost use Rattle.cr_source.specs.Source.{Answers, IsSource};
ghost use Rattle.cr_tool.specs.Sums.{IsUnbuilt};
ghost use Rattle.cr_tool.specs.Outside.{reading, source_limit};
ghost use Rattle.cr_tool.specs.Refusals.{list_of_sums, no_program};
ghost use Rattle.cr_tool.specs.declared.ending.Ending.TheVariants as closing;
ghost use Rattle.cr_tool.specs.Opened.{IsOpened, IsRead, IsRefusal, IsRefusedAs};

use crate::ending::{Closed, Code, Ending, Refusal, Which, refusal_line};
use crate::sums::{Line, LinesFault, read_lines};
use cr_io::{ReadAll, Source, read_all};
use cr_source::{SourceFault, program_of};
use cr_syntax::MAX_SOURCE_BYTES;
use std::alloc::Global;

/// The bytes of a source.
pub fn read_source<S: Source>(alloc: Global, source: &mut S) -> Result<Vec<u8>, Closed>
    ensures { IsRead (reading S.Source source.old source.new) result }
{
    match read_all(alloc, source, MAX_SOURCE_BYTES) {
        Ok(bytes) => Ok(bytes),
        Err(ReadAll::Fault) => Err(Closed::new(alloc, Ending::ReadFault(Which::Source))),
        Err(ReadAll::TooLong) => Err(Closed::new(alloc, Ending::SourceTooLong)),
        Err(ReadAll::NoMemory) => Err(Closed::new(alloc, Ending::NoMemory)),
    }
}

/// The ending of a source that is refused so.
fn refuse(alloc: Global, source: &[u8], refusal: Refusal) -> Closed
    requires { length source.now ≤ source_limit }
    ensures { IsRefusedAs source.now (closing.Refused refusal) result }
{
    match refusal_line(alloc, source, refusal) {
        Ok(line) => Closed {
            ending: Ending::Refused(refusal),
            line,
        },
        Err(_) => Closed::new(alloc, Ending::NoMemory),
    }
}

/// The ending of a source that has no program, by the fault of its tokens or its grammar.
pub fn refuse_program(alloc: Global, source: &[u8], fault: SourceFault) -> Closed
    requires { length source.now ≤ source_limit }
    ensures { IsRefusedAs source.now (no_program fault) result }
{
    match fault {
        SourceFault::Refused(refusal) => {
            let code = Code::Source(refusal.code);
            let at = Some(refusal.at);
            refuse(alloc, source, Refusal { code, at })
        }
        SourceFault::NoMemory => Closed::new(alloc, Ending::NoMemory),
    }
}

/// Why a source has no program, where it has none.
fn fault_of(alloc: Global, source: &[u8]) -> Option<SourceFault>
    requires { length source.now ≤ source_limit }
    ensures { MatchOption result ((x : Tree) × IsSource source.now x) (λ fault. Answers source.now (Err fault)) }
{
    match program_of(alloc, source) {
        Ok(_) => None,
        Err(fault) => Some(fault),
    }
}

/// The ending of a source that is no list of sums, from this place on: the refusal of what is no program, or of a program that is not
/// taken yet.
fn refuse_front(alloc: Global, source: &[u8], place: u32) -> Closed
    requires short { length source.now ≤ source_limit }
    requires unbuilt { IsUnbuilt source.now place }
    ensures { IsRefusal list_of_sums source.now result }
{
    match fault_of(alloc, source) {
        None => {
            let code = Code::NotBuilt;
            let at = Some(place);
            refuse(alloc, source, Refusal { code, at })
        }
        Some(fault) => refuse_program(alloc, source, fault),
    }
}

/// Reads the lines of a source.
pub fn open<S: Source>(alloc: Global, source: &mut S) -> Result<Vec<Line>, Closed>
    ensures { IsOpened (reading S.Source source.old source.new) result }
{
    let bytes = read_source(alloc, source)?;
    match read_lines(alloc, &bytes) {
        Ok(lines) => Ok(lines),
        Err(LinesFault::Unbuilt(place)) => Err(refuse_front(alloc, &bytes, place)),
        Err(LinesFault::NoMemory) => Err(Closed::new(alloc, Ending::NoMemory)),
    }
}
