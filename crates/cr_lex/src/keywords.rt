//! The keywords and reserved words.
ghost use Rattle.std.specs.Prelude.{◌≡◌, map};
ghost use Rattle.std.specs.Map.{lookup as looked_up};
ghost use Rattle.std.specs.Str.{bytes_eq};
ghost use Rattle.cr_syntax.specs.Words.{keyword_of};

use cr_syntax::{KEYWORDS, TokenLook};

/// The first entry of the table with this text.
fn lookup(mut table: &[(&[u8], TokenLook)], text: &[u8]) -> Option<TokenLook>
    ensures { result ≡ looked_up (bytes_eq text.now) (map (λ k. (k.0.now, k.1)) table.entry.now) }
{
    while let [entry, rest @ ..] = table {
        if text == entry.0 {
            return Some(entry.1);
        }
        table = rest;
    }
    None
}

/// The keyword or reserved word that the text is, if any: it stands in the part of its first letter.
pub fn keyword(text: &[u8]) -> Option<TokenLook>
    ensures { result ≡ keyword_of text.now }
{
    match text {
        // Each has two letters at least.
        [_] => None,
        [b'a', ..] => lookup(&KEYWORDS[0..5], text),
        [b'b', ..] => lookup(&KEYWORDS[5..7], text),
        [b'c', ..] => lookup(&KEYWORDS[7..9], text),
        [b'd', ..] => lookup(&KEYWORDS[9..11], text),
        [b'e', ..] => lookup(&KEYWORDS[11..17], text),
        [b'f', ..] => lookup(&KEYWORDS[17..19], text),
        [b'g', ..] => lookup(&KEYWORDS[19..20], text),
        [b'i', ..] => lookup(&KEYWORDS[20..24], text),
        [b'l', ..] => lookup(&KEYWORDS[24..26], text),
        [b'm', ..] => lookup(&KEYWORDS[26..28], text),
        [b'n', ..] => lookup(&KEYWORDS[28..31], text),
        [b'o', ..] => lookup(&KEYWORDS[31..33], text),
        [b'p', ..] => lookup(&KEYWORDS[33..36], text),
        [b'r', ..] => lookup(&KEYWORDS[36..39], text),
        [b's', ..] => lookup(&KEYWORDS[39..44], text),
        [b't', ..] => lookup(&KEYWORDS[44..47], text),
        [b'u', ..] => lookup(&KEYWORDS[47..50], text),
        [b'w', ..] => lookup(&KEYWORDS[50..53], text),
        [b'y', ..] => lookup(&KEYWORDS[53..54], text),
        _ => None,
    }
}
