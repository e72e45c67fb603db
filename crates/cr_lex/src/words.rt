//! Names, keywords, constants and instance variables.
ghost use Rattle.std.specs.Prelude.{◌≡◌, ◌<◌, length, drop, slice_index, true, IfOk};
ghost use Rattle.std.specs.Str.{IsUtf8};
ghost use Rattle.cr_syntax.specs.Words as spec;
ghost use Rattle.cr_lex.specs.Longest.{Finds, IsLongest};
ghost use Rattle.cr_lex.specs.Words.{word_form, constant_form, variable_form};

use crate::bytes::{begins_name, marked_len, word_len};
use crate::keywords::keyword;
use cr_base::NoMemory;
use cr_syntax::{TokenKind, TokenText};
use std::alloc::Global;

/// A copy of the bytes.
fn copied(alloc: Global, text: &[u8]) -> Result<TokenText, NoMemory>
    requires { IsUtf8 text.now }
    ensures { IfOk result (λ t. t ≡ text.now) }
{
    TokenText::of_bytes(alloc, text)
}

/// The keyword, or else the name.
fn word_of(alloc: Global, text: &[u8]) -> Result<TokenKind, NoMemory>
    requires { IsUtf8 text.now }
    ensures { IfOk result (λ kind. kind ≡ spec.word_of text.now) }
{
    match keyword(text) {
        Some(look) => Ok(TokenKind::Plain(look)),
        None => Ok(TokenKind::Ident(copied(alloc, text)?)),
    }
}

/// The word at the front, where one begins there, and how many bytes of it stand behind the first.
pub fn word(alloc: Global, bytes: &[u8]) -> Result<(TokenKind, usize), NoMemory>
    requires some { 0 < length bytes.now }
    requires begins { spec.begins_name (slice_index bytes.now 0) ≡ true }
    ensures { IfOk result (λ r. IsLongest (word_form (slice_index bytes.now 0)) (drop 1 bytes.now) r.1 r.0) }
{
    let len = marked_len(&bytes[1..]);
    let kind = word_of(alloc, &bytes[..len + 1])?;
    Ok((kind, len))
}

/// The same for a constant.
pub fn constant(alloc: Global, bytes: &[u8]) -> Result<(TokenKind, usize), NoMemory>
    requires some { 0 < length bytes.now }
    requires begins { spec.begins_constant (slice_index bytes.now 0) ≡ true }
    ensures { IfOk result (λ r. IsLongest (constant_form (slice_index bytes.now 0)) (drop 1 bytes.now) r.1 r.0) }
{
    let len = word_len(&bytes[1..]);
    let text = copied(alloc, &bytes[..len + 1])?;
    Ok((TokenKind::Constant(text), len))
}

/// The name of an instance variable at the front, if one begins there, and how many bytes it takes.
pub fn variable(alloc: Global, bytes: &[u8]) -> Result<Option<(TokenKind, usize)>, NoMemory>
    ensures { IfOk result (λ found. Finds variable_form bytes.now found) }
{
    if bytes.is_empty() || !begins_name(bytes[0]) {
        return Ok(None);
    }
    let len = word_len(bytes);
    let text = copied(alloc, &bytes[..len])?;
    Ok(Some((TokenKind::InstanceVariable(text), len)))
}
