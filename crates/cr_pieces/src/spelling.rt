//! How keywords and operators are written.
ghost use Rattle.std.specs.Prelude.{◌≡◌, map};
ghost use Rattle.std.specs.Option.{option_map};
ghost use Rattle.cr_pieces.specs.Pieces.{spelled_in, spelling};

use cr_syntax::{KEYWORDS, OPERATORS, TokenLook};

/// The first text of the table that has the look.
fn text_in(
    mut table: &'static [(&'static [u8], TokenLook)],
    look: TokenLook,
) -> Option<&'static [u8]>
    ensures { spelled_in (map (λ k. (k.0.now, k.1)) table.entry.now) look ≡ option_map (λ t. t.now) result }
{
    while let [entry, rest @ ..] = table {
        if entry.1 == look {
            return Some(entry.0);
        }
        table = rest;
    }
    None
}

/// How a keyword, a reserved word, an operator or the end of a line is written: nothing for any other look.
pub fn spelling_of(look: TokenLook) -> &'static [u8]
    ensures { result.now ≡ spelling look }
{
    if let Some(text) = text_in(&KEYWORDS, look) {
        return text;
    }
    match text_in(&OPERATORS, look) {
        Some(text) => text,
        None => b"",
    }
}
