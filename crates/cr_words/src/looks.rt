//! Tests of the next tokens.

ghost use Rattle.std.specs.Prelude.{◌≡◌, ◌&&◌};
ghost use Rattle.cr_grammar.specs.Laws as laws;
ghost use Rattle.cr_grammar.specs.Operators as o;
ghost use Rattle.cr_readers.specs.Cursor.{state_of};
ghost use Rattle.cr_readers.specs.Goes as goes;
ghost use Rattle.cr_readers.specs.Operations as operations;
ghost use Rattle.cr_readers.specs.Reader.{passes};
ghost use Rattle.cr_readers.specs.Reads.{Reads};

use cr_grammar::Within;
use cr_readers::{Cursor, ParseFault, begins_value, is_minus};
use cr_syntax::TokenLook;

/// Whether a token of this look begins a value in these surroundings.
pub fn begins_or(within: Within, look: TokenLook) -> bool
    ensures { result ≡ laws.begins_or within look }
{
    match look {
        TokenLook::Yield | TokenLook::Super => within.method,
        TokenLook::KeywordSelf | TokenLook::InstanceVariable => within.class && within.method,
        TokenLook::Minus
        | TokenLook::OpenBrace
        | TokenLook::Spawn
        | TokenLook::If
        | TokenLook::Unless
        | TokenLook::While
        | TokenLook::Until
        | TokenLook::Case
        | TokenLook::Select => true,
        _ => begins_value(look),
    }
}

/// Whether a token of this look begins a statement in these surroundings.
pub fn begins_stmt(within: Within, look: TokenLook) -> bool
    ensures { result ≡ laws.begins_stmt within look }
{
    match look {
        TokenLook::Return => within.method && !within.block,
        TokenLook::Next => within.in_loop || within.block,
        TokenLook::Break => within.in_loop,
        _ => begins_or(within, look),
    }
}

/// Whether a link follows an operand: `.`, or a tight `[`.
pub fn is_link(cursor: &Cursor<'_>) -> bool
    ensures { result ≡ passes (goes.is_link) (state_of cursor.now).rest }
{
    match cursor.token() {
        Some(token) => match token.kind.look() {
            TokenLook::Dot => true,
            TokenLook::OpenBracket => !token.spaced,
            _ => false,
        },
        None => false,
    }
}

/// Whether a block begins: with `{`, or with `do` where this is free to begin one.
pub fn begins_block(cursor: &Cursor<'_>, free: bool) -> bool
    ensures { result ≡ passes (goes.begins_block free) (state_of cursor.now).rest }
{
    match cursor.token() {
        Some(token) => match token.kind.look() {
            TokenLook::OpenBrace => true,
            TokenLook::Do => free,
            _ => false,
        },
        None => false,
    }
}

/// Whether the next token is spaced, as one behind an operator must be that would else be a sign.
pub fn is_spaced(cursor: &Cursor<'_>) -> bool
    ensures { result ≡ passes operations.is_spaced (state_of cursor.now).rest }
{
    match cursor.token() {
        Some(token) => token.spaced,
        None => false,
    }
}

/// Whether a token of this look is a name, behind which arguments may stand without parentheses.
pub fn is_name(look: TokenLook) -> bool
    ensures { result ≡ o.is_name look }
{
    matches!(look, TokenLook::Ident | TokenLook::Yield | TokenLook::Super)
}

/// Whether a token is a spaced `-`: behind a name it is a sign if the token behind it is tight.
pub fn is_sign(look: TokenLook, spaced: bool) -> bool
    ensures { result ≡ o.is_minus look && spaced }
{
    is_minus(look) && spaced
}

/// Whether a value begins that is no `if` and no `unless`, which a statement reads by itself.
pub fn begins_left(cursor: &Cursor<'_>, within: Within) -> bool
    ensures { result ≡ passes (goes.begins_left within) (state_of cursor.now).rest }
{
    match cursor.token() {
        Some(token) => match token.kind.look() {
            TokenLook::If | TokenLook::Unless => false,
            other => begins_or(within, other),
        },
        None => false,
    }
}

/// Sees to it that the `-` that was read last is an operator: where it may be a sign, the next token must be spaced.
///
/// # Errors
///
/// `Unexpected` where it is a sign.
pub fn no_sign(cursor: &mut Cursor<'_>, sign: bool) -> Result<(), ParseFault>
    ensures { Reads (operations.no_sign sign (state_of cursor.old)) result (state_of cursor.new) }
{
    if sign && !is_spaced(cursor) {
        return Err(cursor.refuse());
    }
    Ok(())
}
