// What an ending is, with its status and its closing line.
ghost use Rattle.std.specs.Prelude.{◌≡◌, ◌<◌, ◌≤◌, ◌^◌, [], length, take, IfOk};
ghost use Rattle.std.specs.String.{string_bytes};
ghost use Rattle.cr_tool.specs.Endings.{status_of, place_after, place_of, place_text, source_text, code_text, refusal_line};
ghost use Rattle.cr_tool.specs.Closed.{fixed, text_of};

use cr_source::Code as SourceCode;
use std::alloc::{AllocError, Global};

/// What a refusal says of a source, by the stage that refuses it.
#[derive(Clone, Copy, Debug, PartialEq, Eq)]
pub enum Code {
    /// The source is no program, by its tokens or its grammar.
    Source(SourceCode),
    /// `X0`: a form that is not built yet.
    NotBuilt,
}

/// Why a source is refused, and at which byte place, from 0.
#[derive(Clone, Copy, Debug, PartialEq, Eq)]
pub struct Refusal {
    pub code: Code,
    /// None for a refusal that speaks of the whole program.
    pub at: Option<u32>,
}

/// Which source or sink failed.
#[derive(Clone, Copy, Debug, PartialEq, Eq)]
pub enum Which {
    /// The program's text.
    Source,
    /// The standard output.
    Out,
}

/// How a command ended.
#[derive(Clone, Copy, Debug, PartialEq, Eq)]
pub enum Ending {
    /// A still command did its work.
    Told,
    /// Main is done without a raise.
    Finished,
    /// The words are no command line.
    Usage,
    /// The source is no program, or none that is built.
    Refused(Refusal),
    /// More than 1,048,576 bytes of the source came.
    SourceTooLong,
    /// A read failed.
    ReadFault(Which),
    /// A write failed.
    WriteFault(Which),
    /// Want of memory.
    NoMemory,
}

/// The exit status of an ending.
pub fn status_of(ending: Ending) -> u8
    ensures { result ≡ status_of ending }
{
    match ending {
        Ending::Told | Ending::Finished => 0,
        Ending::Usage => 2,
        Ending::Refused(_) | Ending::SourceTooLong => 3,
        Ending::ReadFault(_) => 6,
        Ending::WriteFault(_) => 7,
        Ending::NoMemory => 8,
    }
}

/// The closing line of an ending that speaks of no place.
pub fn fixed(ending: Ending) -> &'static str
    ensures { result.now ≡ fixed ending }
{
    match ending {
        Ending::Told | Ending::Finished | Ending::Refused(_) => "",
        Ending::Usage => {
            "usage: crystal_ec COMMAND FILE [TRACE] [--workers N] [--budget N] [--trace FILE]\n"
        }
        Ending::SourceTooLong => "source too long\n",
        Ending::ReadFault(Which::Source) => "read fault: source\n",
        Ending::ReadFault(Which::Out) => "read fault: out\n",
        Ending::WriteFault(Which::Source) => "write fault: source\n",
        Ending::WriteFault(Which::Out) => "write fault: out\n",
        Ending::NoMemory => "out of memory\n",
    }
}

/// The code of a refusal of a source, and what it says.
fn source_text(code: SourceCode) -> &'static str
    ensures { result.now ≡ source_text code }
{
    match code {
        SourceCode::NotUtf8 => "L1 not UTF-8",
        SourceCode::BadByte => "L2 unexpected byte",
        SourceCode::OpenString => "L3 string not closed",
        SourceCode::BadEscape => "L4 bad escape",
        SourceCode::BadNumber => "L5 bad number",
        SourceCode::Unexpected => "P1 unexpected token",
        SourceCode::TooDeep => "P2 nested too deeply",
        SourceCode::TooManyNodes => "P3 too many nodes",
    }
}

fn code_text(code: Code) -> &'static str
    ensures { result.now ≡ code_text code }
{
    match code {
        Code::Source(code) => source_text(code),
        Code::NotBuilt => "X0 not built yet",
    }
}

/// The bytes before a place, all of them where it stands behind the last.
fn front(source: &[u8], at: usize) -> &[u8]
    ensures is { result.now ≡ take at source.now }
    ensures shorter { length result.now ≤ length source.now }
{
    if at < source.len() {
        return &source[..at];
    }
    source
}

/// The line and the column behind these bytes, both from 1. Columns count bytes.
fn place_behind(bytes: &[u8]) -> (u32, u32)
    requires { length bytes.now < 2 ^ 31 }
    ensures { result ≡ place_after 1 1 bytes.now }
{
    let mut line = 1;
    let mut column = 1;
    for byte in bytes {
        if *byte == b'\n' {
            line += 1;
            column = 1;
        } else {
            column += 1;
        }
    }
    (line, column)
}

/// The line and the column of a byte place.
fn place_of(source: &[u8], at: usize) -> (u32, u32)
    requires { length source.now < 2 ^ 31 }
    ensures { result ≡ place_of source.now at }
{
    place_behind(front(source, at))
}

/// The front of a refusal's line: its place, if it has one.
fn place_text(alloc: Global, source: &[u8], at: Option<u32>) -> Result<String, AllocError>
    requires { length source.now < 2 ^ 31 }
    ensures { IfOk result (λ text. string_bytes text ≡ place_text source.now at) }
{
    let Some(at) = at else {
        return Ok(String::new(alloc));
    };
    let (line, column) = place_of(source, at as usize);
    let mut text = line.to_string(alloc)?;
    text.push_str(":")?;
    text.push_str(column.to_string(alloc)?.as_str())?;
    text.push_str(": ")?;
    Ok(text)
}

/// The closing line of a refusal.
pub fn refusal_line(alloc: Global, source: &[u8], refusal: Refusal) -> Result<String, AllocError>
    requires { length source.now < 2 ^ 31 }
    ensures { IfOk result (λ line. string_bytes line ≡ refusal_line source.now refusal) }
{
    let mut line = place_text(alloc, source, refusal.at)?;
    line.push_str(code_text(refusal.code))?;
    line.push_str("\n")?;
    Ok(line)
}

/// An ending, and its line where it is a refusal.
#[derive(Debug, Drop)]
pub struct Closed {
    pub ending: Ending,
    pub line: String,
}

impl Closed {
    /// An ending that is no refusal.
    pub fn new(alloc: Global, ending: Ending) -> Self
        ensures ending { result.ending ≡ ending }
        ensures line { string_bytes result.line ≡ [] }
    {
        Closed {
            ending,
            line: String::new(alloc),
        }
    }

    /// The closing line.
    pub fn text(&self) -> &str
        ensures { result.now ≡ text_of self.now }
    {
        match self.ending {
            Ending::Refused(_) => self.line.as_str(),
            other => fixed(other),
        }
    }
}
