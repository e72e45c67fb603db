//! The tokens that hold a name, a number or a text.

ghost use Rattle.std.specs.Prelude.{◌≡◌};
ghost use Rattle.cr_readers.specs.Reader.{next, holder};
ghost use Rattle.cr_readers.specs.Cursor.{state_of};
ghost use Rattle.cr_readers.specs.Reads.{Reads};
ghost use Rattle.cr_readers.specs.Words as spec;
ghost use Rattle.cr_words.specs.Gives.{Gives, GivesAt};

use cr_grammar::{Tree, Word};
use cr_readers::{Cursor, ParseFault};
use cr_syntax::{Token, TokenKind, TokenText};
use sqlite_items::Boxed;
use std::alloc::Global;

/// This text as a token holds it.
///
/// # Errors
///
/// `NoMemory` where memory runs out.
pub fn spelled(alloc: Global, text: &str) -> Result<TokenText, ParseFault>
    ensures { Gives text.now result }
{
    match TokenText::of(alloc, text) {
        Ok(text) => Ok(text),
        Err(_) => Err(ParseFault::NoMemory),
    }
}

/// A copy of a text that a token holds.
///
/// # Errors
///
/// `NoMemory` where memory runs out.
pub fn copy(alloc: Global, text: &TokenText) -> Result<TokenText, ParseFault>
    ensures { Gives text.now result }
{
    match text.copied(alloc) {
        Ok(text) => Ok(text),
        Err(_) => Err(ParseFault::NoMemory),
    }
}

/// The next token is this one, which holds this text.
fn word(
    alloc: Global,
    cursor: &mut Cursor<'_>,
    token: &Token,
    text: &TokenText,
) -> Result<Word, ParseFault>
    ensures { GivesAt (record { at = token.now.span.first; text = text.now }) (next (state_of cursor.old)) result (state_of cursor.new) }
{
    let text = copy(alloc, text)?;
    cursor.take();
    Ok(Word {
        at: token.span.first,
        text,
    })
}

/// Reads a name, with its place.
///
/// # Errors
///
/// `Unexpected` where no name comes, and `NoMemory` where memory runs out.
pub fn ident(alloc: Global, cursor: &mut Cursor<'_>) -> Result<Word, ParseFault>
    ensures { Reads (spec.ident (state_of cursor.old)) result (state_of cursor.new) }
{
    if let Some(token) = cursor.token() {
        if let TokenKind::Ident(text) = &token.kind {
            return word(alloc, cursor, token, text);
        }
    }
    Err(cursor.refuse())
}

/// Reads a name of a class or module, with its place.
///
/// # Errors
///
/// `Unexpected` where none comes, and `NoMemory` where memory runs out.
pub fn constant(alloc: Global, cursor: &mut Cursor<'_>) -> Result<Word, ParseFault>
    ensures { Reads (spec.constant (state_of cursor.old)) result (state_of cursor.new) }
{
    if let Some(token) = cursor.token() {
        if let TokenKind::Constant(text) = &token.kind {
            return word(alloc, cursor, token, text);
        }
    }
    Err(cursor.refuse())
}

/// Reads a name of an instance variable, with its place.
///
/// # Errors
///
/// `Unexpected` where none comes, and `NoMemory` where memory runs out.
pub fn instance_variable(alloc: Global, cursor: &mut Cursor<'_>) -> Result<Word, ParseFault>
    ensures { Reads (spec.instance_variable (state_of cursor.old)) result (state_of cursor.new) }
{
    if let Some(token) = cursor.token() {
        if let TokenKind::InstanceVariable(text) = &token.kind {
            return word(alloc, cursor, token, text);
        }
    }
    Err(cursor.refuse())
}

/// Reads a text without insertions.
///
/// # Errors
///
/// `Unexpected` where none comes.
pub fn whole_text(alloc: Global, cursor: &mut Cursor<'_>) -> Result<Word, ParseFault>
    ensures { Reads (holder spec.whole_text (state_of cursor.old)) result (state_of cursor.new) }
{
    if let Some(token) = cursor.token() {
        if let TokenKind::Text(text) = &token.kind {
            return word(alloc, cursor, token, text);
        }
    }
    Err(cursor.refuse())
}

/// Reads the part of a text before its first insertion.
///
/// # Errors
///
/// `Unexpected` where none comes.
pub fn first_text(alloc: Global, cursor: &mut Cursor<'_>) -> Result<Word, ParseFault>
    ensures { Reads (holder spec.first_text (state_of cursor.old)) result (state_of cursor.new) }
{
    if let Some(token) = cursor.token() {
        if let TokenKind::TextFirst(text) = &token.kind {
            return word(alloc, cursor, token, text);
        }
    }
    Err(cursor.refuse())
}

/// Reads a part of a text between two insertions.
///
/// # Errors
///
/// `Unexpected` where none comes.
pub fn middle_text(alloc: Global, cursor: &mut Cursor<'_>) -> Result<Word, ParseFault>
    ensures { Reads (holder spec.middle_text (state_of cursor.old)) result (state_of cursor.new) }
{
    if let Some(token) = cursor.token() {
        if let TokenKind::TextMiddle(text) = &token.kind {
            return word(alloc, cursor, token, text);
        }
    }
    Err(cursor.refuse())
}

/// Reads the part of a text behind its last insertion.
///
/// # Errors
///
/// `Unexpected` where none comes.
pub fn last_text(alloc: Global, cursor: &mut Cursor<'_>) -> Result<Word, ParseFault>
    ensures { Reads (holder spec.last_text (state_of cursor.old)) result (state_of cursor.new) }
{
    if let Some(token) = cursor.token() {
        if let TokenKind::TextLast(text) = &token.kind {
            return word(alloc, cursor, token, text);
        }
    }
    Err(cursor.refuse())
}

/// Reads the name `text` and no other, and tells its place.
///
/// # Errors
///
/// `Unexpected` where another name comes, or none.
pub fn exactly_ident(cursor: &mut Cursor<'_>, text: &str) -> Result<u32, ParseFault>
    ensures { Reads (spec.exactly_ident text.now (state_of cursor.old)) result (state_of cursor.new) }
{
    if let Some(token) = cursor.token() {
        if let TokenKind::Ident(found) = &token.kind {
            if found.as_bytes() == text.as_bytes() {
                cursor.take();
                return Ok(token.span.first);
            }
        }
    }
    Err(cursor.refuse())
}

/// Reads a number, and tells its place too.
///
/// # Errors
///
/// `Unexpected` where no number comes, `NoMemory` where memory runs out.
pub fn number(alloc: Global, cursor: &mut Cursor<'_>) -> Result<(u32, Boxed<Tree>), ParseFault>
    ensures { Reads (spec.number (state_of cursor.old)) result (state_of cursor.new) }
{
    if let Some(token) = cursor.token() {
        let at = token.span.first;
        if let TokenKind::Int32(value) = token.kind {
            cursor.take();
            return Ok((at, Boxed::new(alloc, Tree::Int32 { at, value })?));
        }
        if let TokenKind::Int64(value) = token.kind {
            cursor.take();
            return Ok((at, Boxed::new(alloc, Tree::Int64 { at, value })?));
        }
    }
    Err(cursor.refuse())
}
