//! Bytes that are put behind others.
ghost use Rattle.std.specs.Prelude.{◌≡◌, ◌++◌, ◌∷◌, [], OnOk};
ghost use Rattle.std.specs.Fmt.{decimal, signed_decimal};
ghost use Rattle.cr_pieces.specs.Pieces.{escaped, escaped_byte};

use cr_base::NoMemory;

/// Puts the bytes.
pub(crate) fn put(out: &mut Vec<u8>, bytes: &[u8]) -> Result<(), NoMemory>
    ensures { OnOk result (out.new.items ≡ out.old.items ++ bytes.now) }
{
    out.extend_from_slice(bytes)?;
    Ok(())
}

/// Puts one byte.
pub(crate) fn put_byte(out: &mut Vec<u8>, byte: u8) -> Result<(), NoMemory>
    ensures { OnOk result (out.new.items ≡ out.old.items ++ byte ∷ []) }
{
    out.push(byte)?;
    Ok(())
}

/// Puts the digits of a number.
fn put_decimal(out: &mut Vec<u8>, number: u64) -> Result<(), NoMemory>
    ensures { OnOk result (out.new.items ≡ out.old.items ++ decimal number) }
{
    if number < 10 {
        return put_byte(out, b'0' + number as u8);
    }
    put_decimal(out, number / 10)?;
    put_byte(out, b'0' + (number % 10) as u8)
}

/// Puts a number with its sign.
pub(crate) fn put_number(out: &mut Vec<u8>, number: i64) -> Result<(), NoMemory>
    ensures { OnOk result (out.new.items ≡ out.old.items ++ signed_decimal number) }
{
    if number < 0 {
        put_byte(out, b'-')?;
    }
    put_decimal(out, number.unsigned_abs())
}

/// Puts a text, with its escapes.
pub(crate) fn put_escaped(out: &mut Vec<u8>, text: &[u8]) -> Result<(), NoMemory>
    ensures { OnOk result (out.new.items ≡ out.old.items ++ escaped text.now) }
{
    for (i, b) in text.iter().enumerate() {
        let rest = &text[i + 1..];
        put_escape(out, *b, rest)?;
    }
    Ok(())
}

/// Puts a byte of a text, where `rest` stands behind it.
fn put_escape(out: &mut Vec<u8>, b: u8, rest: &[u8]) -> Result<(), NoMemory>
    ensures { OnOk result (out.new.items ≡ out.old.items ++ escaped_byte b rest.now) }
{
    match b {
        b'\\' => put(out, b"\\\\"),
        b'"' => put(out, b"\\\""),
        b'\n' => put(out, b"\\n"),
        b'\t' => put(out, b"\\t"),
        b'\r' => put(out, b"\\r"),
        b'#' if matches!(rest, [b'{', ..]) => put(out, b"\\#"),
        _ => put_byte(out, b),
    }
}
