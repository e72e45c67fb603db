//! What holds no construct, put behind other bytes.
ghost use Rattle.std.specs.Prelude.{◌≡◌, ◌≤◌, ◌++◌, OnOk, length, take, drop};
ghost use Rattle.cr_syntax.specs.Words.{is_digit, begins};
ghost use Rattle.cr_pieces.specs.Writes.{Writes};
ghost use Rattle.cr_pretty.specs.Layout.{joined, line, method_name, more_joined};
ghost use Rattle.cr_pretty.specs.Parts.{between, constants, digit_enclosed};

use crate::manner::Manner;
use cr_base::NoMemory;
use cr_pieces::{put_blank, put_constant, put_look};
use cr_syntax::{TokenLook, TokenText};

/// Whether a digit comes first.
fn begins_digit(bytes: &[u8]) -> bool
    ensures { result ≡ begins is_digit bytes.now }
{
    matches!(bytes, [b'0'..=b'9', ..])
}

/// Puts parentheses round the bytes from `first` on, where a digit comes first.
pub(crate) fn enclose_digit(out: &mut Vec<u8>, first: usize) -> Result<(), NoMemory>
    requires { first ≤ length out.old.items }
    ensures { OnOk result (out.new.items ≡ take first out.old.items ++ digit_enclosed (drop first out.old.items)) }
{
    if !begins_digit(&out[first..]) {
        return Ok(());
    }
    out.insert(first, b'(')?;
    out.push(b')')?;
    Ok(())
}

/// Puts the bytes.
pub(crate) fn put_bytes(out: &mut Vec<u8>, bytes: &[u8]) -> Result<(), NoMemory>
    ensures { OnOk result (out.new.items ≡ out.old.items ++ bytes.now) }
{
    out.extend_from_slice(bytes)?;
    Ok(())
}

/// Puts the end of a line, and the blanks of a level. So many that they cannot be counted are too many for memory.
pub(crate) fn put_line(out: &mut Vec<u8>, level: usize) -> Result<(), NoMemory>
    ensures { OnOk result (Writes (line level) out.old.items out.new.items) }
{
    let Some(blanks) = level.checked_mul(2) else {
        return Err(NoMemory);
    };
    put_look(out, TokenLook::Newline)?;
    put_blank(out, blanks)
}

/// Puts the name in a `def`: it is written as it is held.
pub(crate) fn put_method_name(out: &mut Vec<u8>, name: &TokenText) -> Result<(), NoMemory>
    ensures { OnOk result (Writes (method_name name.now) out.old.items out.new.items) }
{
    put_bytes(out, name.as_str().as_bytes())
}

/// Puts what stands between two constructs of a list.
pub(crate) fn put_between(out: &mut Vec<u8>, manner: Manner) -> Result<(), NoMemory>
    ensures { OnOk result (Writes (between manner) out.old.items out.new.items) }
{
    match manner {
        Manner::Arguments | Manner::Listed => {
            put_look(out, TokenLook::Comma)?;
            put_blank(out, 1)
        }
        Manner::Atoms => {
            put_blank(out, 1)?;
            put_look(out, TokenLook::Pipe)?;
            put_blank(out, 1)
        }
        Manner::Path => put_look(out, TokenLook::ColonColon),
    }
}

/// Puts names of classes.
pub(crate) fn put_names(
    out: &mut Vec<u8>,
    names: &[TokenText],
    manner: Manner,
) -> Result<(), NoMemory>
    ensures { OnOk result (Writes (joined (between manner) (constants names.now)) out.old.items out.new.items) }
{
    let [first, more @ ..] = names else {
        return Ok(());
    };
    put_constant(out, first)?;
    put_more_names(out, more, manner)
}

/// Puts the names behind the first one.
fn put_more_names(out: &mut Vec<u8>, names: &[TokenText], manner: Manner) -> Result<(), NoMemory>
    ensures { OnOk result (Writes (more_joined (between manner) (constants names.now)) out.old.items out.new.items) }
{
    for name in names {
        put_between(out, manner)?;
        put_constant(out, name)?;
    }
    Ok(())
}
