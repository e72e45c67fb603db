//! Pieces that are put behind other bytes. Where memory runs out, a front of the piece may stand there.
ghost use Rattle.std.specs.Prelude.{◌≡◌, ◌++◌, ◌∷◌, [], OnOk};
ghost use Rattle.cr_syntax.specs.declared.token.TokenKind.TheVariants as k;
ghost use Rattle.cr_pieces.specs.Pieces.{Blank, Put, escaped};
ghost use Rattle.cr_pieces.specs.Writes.{Writes};

use crate::bytes::{put, put_byte, put_escaped, put_number};
use crate::spelling::spelling_of;
use cr_base::NoMemory;
use cr_syntax::{TokenLook, TokenText};

/// Puts so many spaces.
pub fn put_blank(out: &mut Vec<u8>, count: usize) -> Result<(), NoMemory>
    ensures { OnOk result (Writes (Blank count ∷ []) out.old.items out.new.items) }
{
    for _i in 0..count {
        put_byte(out, b' ')?;
    }
    Ok(())
}

/// Puts a keyword, a reserved word, an operator or the end of a line.
pub fn put_look(out: &mut Vec<u8>, look: TokenLook) -> Result<(), NoMemory>
    ensures { OnOk result (Writes (Put (k.Plain look) ∷ []) out.old.items out.new.items) }
{
    put(out, spelling_of(look))
}

/// Puts the name of a local, a method or a field.
pub fn put_name(out: &mut Vec<u8>, name: &TokenText) -> Result<(), NoMemory>
    ensures { OnOk result (Writes (Put (k.Ident name.now) ∷ []) out.old.items out.new.items) }
{
    put(out, name.as_str().as_bytes())
}

/// Puts the name of a class or module.
pub fn put_constant(out: &mut Vec<u8>, name: &TokenText) -> Result<(), NoMemory>
    ensures { OnOk result (Writes (Put (k.Constant name.now) ∷ []) out.old.items out.new.items) }
{
    put(out, name.as_str().as_bytes())
}

/// Puts an instance variable: `@` and its name.
pub fn put_variable(out: &mut Vec<u8>, name: &TokenText) -> Result<(), NoMemory>
    ensures { OnOk result (Writes (Put (k.InstanceVariable name.now) ∷ []) out.old.items out.new.items) }
{
    put_byte(out, b'@')?;
    put(out, name.as_str().as_bytes())
}

/// Puts a number of 32 bits.
pub fn put_int32(out: &mut Vec<u8>, number: i32) -> Result<(), NoMemory>
    ensures { OnOk result (Writes (Put (k.Int32 number) ∷ []) out.old.items out.new.items) }
{
    put_number(out, i64::from(number))
}

/// Puts a number of 64 bits, with `_i64` behind it.
pub fn put_int64(out: &mut Vec<u8>, number: i64) -> Result<(), NoMemory>
    ensures { OnOk result (Writes (Put (k.Int64 number) ∷ []) out.old.items out.new.items) }
{
    put_number(out, number)?;
    put(out, b"_i64")
}

/// Puts a text with its escapes, between these bytes.
fn put_part(out: &mut Vec<u8>, opening: u8, text: &TokenText, ending: &[u8]) -> Result<(), NoMemory>
    ensures { OnOk result (out.new.items ≡ out.old.items ++ opening ∷ (escaped text.now ++ ending.now)) }
{
    put_byte(out, opening)?;
    put_escaped(out, text.as_str().as_bytes())?;
    put(out, ending)
}

/// Puts a text without insertion, between its quotes.
pub fn put_text(out: &mut Vec<u8>, text: &TokenText) -> Result<(), NoMemory>
    ensures { OnOk result (Writes (Put (k.Text text.now) ∷ []) out.old.items out.new.items) }
{
    put_part(out, b'"', text, b"\"")
}

/// Puts the first part of a text, from its opening quote to its first `#{`.
pub fn put_text_first(out: &mut Vec<u8>, text: &TokenText) -> Result<(), NoMemory>
    ensures { OnOk result (Writes (Put (k.TextFirst text.now) ∷ []) out.old.items out.new.items) }
{
    put_part(out, b'"', text, b"#{")
}

/// Puts a part of a text from the `}` of an insertion to the next `#{`.
pub fn put_text_middle(out: &mut Vec<u8>, text: &TokenText) -> Result<(), NoMemory>
    ensures { OnOk result (Writes (Put (k.TextMiddle text.now) ∷ []) out.old.items out.new.items) }
{
    put_part(out, b'}', text, b"#{")
}

/// Puts the last part of a text, from the `}` of its last insertion to its closing quote.
pub fn put_text_last(out: &mut Vec<u8>, text: &TokenText) -> Result<(), NoMemory>
    ensures { OnOk result (Writes (Put (k.TextLast text.now) ∷ []) out.old.items out.new.items) }
{
    put_part(out, b'}', text, b"\"")
}
