//! What a token alone tells of an argument.

ghost use Rattle.std.specs.Prelude.{◌≡◌};
ghost use Rattle.cr_grammar.specs.Operators as operators;

use cr_syntax::TokenLook;

/// Whether a token of this look begins an argument without parentheses. A `-` may do so too, by the token behind it.
pub fn begins_value(look: TokenLook) -> bool
    ensures { result ≡ operators.begins_value look }
{
    match look {
        TokenLook::Int32
        | TokenLook::Int64
        | TokenLook::Text
        | TokenLook::TextFirst
        | TokenLook::Ident
        | TokenLook::Constant
        | TokenLook::InstanceVariable
        | TokenLook::Nil
        | TokenLook::True
        | TokenLook::False
        | TokenLook::KeywordSelf
        | TokenLook::Yield
        | TokenLook::Super
        | TokenLook::OpenParenthesis
        | TokenLook::OpenBracket
        | TokenLook::Bang => true,
        _ => false,
    }
}

/// Whether a token of this look is a `-`, which may be an operator or a sign.
pub fn is_minus(look: TokenLook) -> bool
    ensures { result ≡ operators.is_minus look }
{
    match look {
        TokenLook::Minus => true,
        _ => false,
    }
}
