//! The operators, and the ends of lines.
ghost use Rattle.std.specs.Prelude.{◌≡◌, [], ◌∷◌};
ghost use Rattle.std.specs.Option.{option_map};
ghost use Rattle.cr_syntax.specs.Operators.{operator_look};
ghost use Rattle.cr_lex.specs.Longest.{Finds};
ghost use Rattle.cr_lex.specs.Words.{operator_form, two_at, three_at};
ghost use Rattle.cr_lex.specs.Step.{with_kind};

use cr_syntax::TokenLook;

/// The operator of one byte.
fn one(a: u8) -> Option<TokenLook>
    ensures { result ≡ operator_look (a ∷ []) }
{
    match a {
        b'+' => Some(TokenLook::Plus),
        b'-' => Some(TokenLook::Minus),
        b'*' => Some(TokenLook::Star),
        b'%' => Some(TokenLook::Percent),
        b'<' => Some(TokenLook::Less),
        b'>' => Some(TokenLook::Greater),
        b'!' => Some(TokenLook::Bang),
        b'=' => Some(TokenLook::Equal),
        b'(' => Some(TokenLook::OpenParenthesis),
        b')' => Some(TokenLook::CloseParenthesis),
        b'[' => Some(TokenLook::OpenBracket),
        b']' => Some(TokenLook::CloseBracket),
        b'{' => Some(TokenLook::OpenBrace),
        b'}' => Some(TokenLook::CloseBrace),
        b',' => Some(TokenLook::Comma),
        b'.' => Some(TokenLook::Dot),
        b':' => Some(TokenLook::Colon),
        b'|' => Some(TokenLook::Pipe),
        b'?' => Some(TokenLook::Question),
        b'\n' | b';' => Some(TokenLook::Newline),
        _ => None,
    }
}

/// The operator of a byte and `=`.
fn with_equal(a: u8) -> Option<TokenLook>
    ensures { result ≡ operator_look (a ∷ 61 ∷ []) }
{
    match a {
        b'=' => Some(TokenLook::EqualEqual),
        b'!' => Some(TokenLook::NotEqual),
        b'<' => Some(TokenLook::LessEqual),
        b'>' => Some(TokenLook::GreaterEqual),
        b'+' => Some(TokenLook::PlusEqual),
        b'-' => Some(TokenLook::MinusEqual),
        b'*' => Some(TokenLook::StarEqual),
        b'%' => Some(TokenLook::PercentEqual),
        _ => None,
    }
}

/// The operator of the byte and the one at the front.
///
/// Those that end in `=` stand apart: a match on so many first bytes jumps, which is slow where operators are mixed.
fn two(a: u8, more: &[u8]) -> Option<TokenLook>
    ensures { result ≡ two_at a more.now }
{
    match more {
        [b'=', ..] => with_equal(a),
        [b, ..] => match (a, *b) {
            (b'/', b'/') => Some(TokenLook::SlashSlash),
            (b'&', b'+') => Some(TokenLook::WrappingPlus),
            (b'&', b'-') => Some(TokenLook::WrappingMinus),
            (b'&', b'*') => Some(TokenLook::WrappingStar),
            (b'&', b'&') => Some(TokenLook::AndAnd),
            (b'<', b'<') => Some(TokenLook::ShiftLeft),
            (b'|', b'|') => Some(TokenLook::OrOr),
            (b':', b':') => Some(TokenLook::ColonColon),
            (b'=', b'>') => Some(TokenLook::Arrow),
            _ => None,
        },
        [] => None,
    }
}

/// The operator of the byte and the two at the front.
fn three(a: u8, more: &[u8]) -> Option<TokenLook>
    ensures { result ≡ three_at a more.now }
{
    match (a, more) {
        (b'/', [b'/', b'=', ..]) => Some(TokenLook::SlashSlashEqual),
        (b'|', [b'|', b'=', ..]) => Some(TokenLook::OrOrEqual),
        _ => None,
    }
}

/// The longest operator that begins with the byte, and how many bytes of it stand behind.
pub fn operator(a: u8, more: &[u8]) -> Option<(TokenLook, usize)>
    ensures { Finds (operator_form a) more.now (option_map with_kind result) }
{
    if let Some(look) = two(a, more) {
        return match three(a, more) {
            Some(longer) => Some((longer, 2)),
            None => Some((look, 1)),
        };
    }
    match one(a) {
        Some(look) => Some((look, 0)),
        None => None,
    }
}
