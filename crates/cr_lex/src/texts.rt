//! Texts and their parts.
ghost use Rattle.std.specs.Prelude.{◌≡◌, ◌≤◌, length, false, IfErr};
ghost use Rattle.std.specs.Str.{IsUtf8};
ghost use Rattle.cr_syntax.specs.Texts as spec;
ghost use Rattle.cr_lex.specs.Texts.{ends_plain as plain_ends, ending_length, ending_of, plain_length, scan};
ghost use Rattle.cr_lex.specs.Parts.{Scans, ReadsPart, IsWithin};

use crate::bytes::begins_brace;
use cr_base::NoMemory;
use cr_syntax::{TokenKind, TokenText};
use std::alloc::{AllocError, AllocFailed, Global};

/// The bytes of a part, whether it ends with `#{`, and how many bytes it takes.
#[derive(Drop)]
pub struct Body {
    pub content: Vec<u8>,
    pub opens: bool,
    pub len: usize,
}

/// Why no part stands there: the byte behind a backslash that is no escape, or the end of the source.
#[derive(Clone, Copy, Debug)]
pub enum PartFault {
    Escape(usize),
    Unended,
    NoMemory,
}

impl From<NoMemory> for PartFault {
    ghost use Rattle.std.specs.Prelude.{◌≡◌};
    ghost use Rattle.cr_lex.specs.declared.texts.PartFault.TheVariants as fault;

    ghost from_gives = { λ _ e. e ≡ fault.NoMemory };

    fn from(_: NoMemory) -> Self {
        PartFault::NoMemory
    }
}

impl From<AllocError> for PartFault {
    ghost use Rattle.std.specs.Prelude.{◌≡◌};
    ghost use Rattle.cr_lex.specs.declared.texts.PartFault.TheVariants as fault;

    ghost from_gives = { λ _ e. e ≡ fault.NoMemory };

    fn from(_: AllocError) -> Self {
        PartFault::NoMemory
    }
}

impl<T: Drop> From<AllocFailed<T>> for PartFault {
    ghost use Rattle.std.specs.Prelude.{◌≡◌};
    ghost use Rattle.cr_lex.specs.declared.texts.PartFault.TheVariants as fault;

    ghost from_gives = { λ _ e. e ≡ fault.NoMemory };

    fn from(_: AllocFailed<T>) -> Self {
        PartFault::NoMemory
    }
}

/// What a backslash and the byte stand for.
fn escape(b: u8) -> Option<u8>
    ensures { result ≡ spec.escape b }
{
    match b {
        b'\\' | b'"' | b'#' => Some(b),
        b'n' => Some(b'\n'),
        b't' => Some(b'\t'),
        b'r' => Some(b'\r'),
        _ => None,
    }
}

fn ends_plain(b: u8) -> bool
    ensures { result ≡ plain_ends b }
{
    b == b'"' || (b == b'\\' || b == b'#')
}

/// How many bytes at the front stand for themselves.
fn plain_len(bytes: &[u8]) -> usize
    ensures value { result ≡ plain_length bytes.now }
    ensures within { result ≤ length bytes.now }
{
    for (i, b) in bytes.iter().enumerate() {
        if ends_plain(*b) {
            return i;
        }
    }
    bytes.len()
}

/// The part whose bytes begin here, byte by byte.
fn read_body(alloc: Global, bytes: &[u8]) -> Result<Body, PartFault>
    ensures scanned { Scans result (scan false bytes.now) }
    ensures within { IfErr result (λ f. IsWithin f bytes.now) }
{
    let mut content = Vec::new(alloc);
    let mut escaped = false;
    for (i, b) in bytes.iter().enumerate() {
        if escaped {
            let Some(byte) = escape(*b) else {
                return Err(PartFault::Escape(i));
            };
            content.push(byte)?;
            escaped = false;
        } else if *b == b'"' {
            let opens = false;
            return Ok(Body {
                content,
                opens,
                len: i + 1,
            });
        } else if *b == b'\\' {
            escaped = true;
        } else if *b == b'#' && begins_brace(&bytes[i + 1..]) {
            let opens = true;
            return Ok(Body {
                content,
                opens,
                len: i + 2,
            });
        } else {
            content.push(*b)?;
        }
    }
    Err(if escaped {
        PartFault::Escape(bytes.len())
    } else {
        PartFault::Unended
    })
}

/// Where a part ends here: whether by `#{`.
fn ending(bytes: &[u8]) -> Option<bool>
    ensures { result ≡ ending_of bytes.now }
{
    match bytes {
        [b'"', ..] => Some(false),
        [b'#', b'{', ..] => Some(true),
        _ => None,
    }
}

fn ending_len(opens: bool) -> usize
    ensures { result ≡ ending_length opens }
{
    if opens { 2 } else { 1 }
}

/// The part whose bytes begin here. One whose bytes all stand for themselves is copied whole.
fn body_at(alloc: Global, bytes: &[u8]) -> Result<Body, PartFault>
    ensures scanned { Scans result (scan false bytes.now) }
    ensures within { IfErr result (λ f. IsWithin f bytes.now) }
{
    let len = plain_len(bytes);
    let Some(opens) = ending(&bytes[len..]) else {
        return read_body(alloc, bytes);
    };
    let content = Vec::from_slice(alloc, &bytes[..len])?;
    Ok(Body {
        content,
        opens,
        len: len + ending_len(opens),
    })
}

fn part_kind(quoted: bool, opens: bool, text: TokenText) -> TokenKind
    ensures { result ≡ spec.part_kind quoted (record { bytes = text; opens = opens }) }
{
    match (quoted, opens) {
        (true, true) => TokenKind::TextFirst(text),
        (true, false) => TokenKind::Text(text),
        (false, true) => TokenKind::TextMiddle(text),
        (false, false) => TokenKind::TextLast(text),
    }
}

/// The part whose bytes begin here, behind the opening quote or the `}` of an insertion, and how many bytes it takes.
pub fn part(alloc: Global, quoted: bool, bytes: &[u8]) -> Result<(TokenKind, usize), PartFault>
    requires { IsUtf8 bytes.now }
    ensures { ReadsPart quoted bytes.now result }
{
    match body_at(alloc, bytes) {
        Ok(
            Body {
                content,
                opens,
                len,
            },
        ) => {
            let text = TokenText::of_bytes(alloc, content.as_slice())?;
            Ok((part_kind(quoted, opens, text), len))
        }
        Err(fault) => Err(fault),
    }
}
