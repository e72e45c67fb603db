//! The operators: how tight each binds, and what a token assigns.

ghost use Rattle.std.specs.Prelude.{◌≡◌, false};
ghost use Rattle.cr_syntax.specs.Look.{look_of};
ghost use Rattle.cr_grammar.specs.Operators as o;
ghost use Rattle.cr_readers.specs.Reader as reader;
ghost use Rattle.cr_readers.specs.Cursor.{state_of};
ghost use Rattle.cr_readers.specs.Reads.{Reads};
ghost use Rattle.cr_readers.specs.Goes as goes;
ghost use Rattle.cr_readers.specs.Operations as operations;
ghost use Rattle.cr_words.specs.Tables.{table, of_some_level};

use crate::looks::is_sign;
use cr_grammar::{Assignment, Binary};
use cr_readers::{Cursor, Operator, ParseFault};
use cr_syntax::TokenLook;

/// How tight an operator binds, from the loosest to the tightest.
#[derive(Clone, Copy)]
pub enum Level {
    Or,
    And,
    Cmp,
    Shift,
    Sum,
    Prod,
}

fn cmp_operator(look: TokenLook) -> Option<Binary>
    ensures { result ≡ o.cmp_operator look }
{
    match look {
        TokenLook::EqualEqual => Some(Binary::Equal),
        TokenLook::NotEqual => Some(Binary::NotEqual),
        TokenLook::Less => Some(Binary::Less),
        TokenLook::LessEqual => Some(Binary::LessEqual),
        TokenLook::Greater => Some(Binary::Greater),
        TokenLook::GreaterEqual => Some(Binary::GreaterEqual),
        _ => None,
    }
}

fn sum_operator(look: TokenLook) -> Option<Binary>
    ensures { result ≡ o.sum_operator look }
{
    match look {
        TokenLook::Plus => Some(Binary::Plus),
        TokenLook::Minus => Some(Binary::Minus),
        TokenLook::WrappingPlus => Some(Binary::WrappingPlus),
        TokenLook::WrappingMinus => Some(Binary::WrappingMinus),
        _ => None,
    }
}

fn prod_operator(look: TokenLook) -> Option<Binary>
    ensures { result ≡ o.prod_operator look }
{
    match look {
        TokenLook::Star => Some(Binary::Star),
        TokenLook::SlashSlash => Some(Binary::SlashSlash),
        TokenLook::Percent => Some(Binary::Percent),
        TokenLook::WrappingStar => Some(Binary::WrappingStar),
        _ => None,
    }
}

/// The operator of this level that a token stands for.
pub fn operator(level: Level, look: TokenLook) -> Option<Binary>
    ensures { result ≡ table level look }
{
    match level {
        Level::Or => match look {
            TokenLook::OrOr => Some(Binary::Or),
            _ => None,
        },
        Level::And => match look {
            TokenLook::AndAnd => Some(Binary::And),
            _ => None,
        },
        Level::Cmp => cmp_operator(look),
        Level::Shift => match look {
            TokenLook::ShiftLeft => Some(Binary::ShiftLeft),
            _ => None,
        },
        Level::Sum => sum_operator(look),
        Level::Prod => prod_operator(look),
    }
}

/// How a token assigns a local or an instance variable.
pub fn any_assignment(look: TokenLook) -> Option<Assignment>
    ensures { result ≡ o.any_assignment look }
{
    match look {
        TokenLook::Equal => Some(Assignment::Plain),
        TokenLook::PlusEqual => Some(Assignment::Plus),
        TokenLook::MinusEqual => Some(Assignment::Minus),
        TokenLook::StarEqual => Some(Assignment::Star),
        TokenLook::SlashSlashEqual => Some(Assignment::SlashSlash),
        TokenLook::PercentEqual => Some(Assignment::Percent),
        TokenLook::OrOrEqual => Some(Assignment::Or),
        _ => None,
    }
}

/// How a token assigns a field or an element; `||=` does not.
pub fn field_assignment(look: TokenLook) -> Option<Assignment>
    ensures { result ≡ o.field_assignment look }
{
    match look {
        TokenLook::OrOrEqual => None,
        _ => any_assignment(look),
    }
}

/// Whether a token of this look is an operator of some level.
fn is_operator(look: TokenLook) -> bool
    ensures { result ≡ of_some_level look false }
{
    match look {
        TokenLook::OrOr
        | TokenLook::AndAnd
        | TokenLook::EqualEqual
        | TokenLook::NotEqual
        | TokenLook::Less
        | TokenLook::LessEqual
        | TokenLook::Greater
        | TokenLook::GreaterEqual
        | TokenLook::ShiftLeft
        | TokenLook::Plus
        | TokenLook::Minus
        | TokenLook::WrappingPlus
        | TokenLook::WrappingMinus
        | TokenLook::Star
        | TokenLook::SlashSlash
        | TokenLook::Percent
        | TokenLook::WrappingStar => true,
        _ => false,
    }
}

/// Whether an operator of any level comes.
pub fn sees_any_operator(cursor: &Cursor<'_>) -> bool
    ensures { result ≡ reader.passes of_some_level (state_of cursor.now).rest }
{
    match cursor.token() {
        Some(token) => is_operator(token.kind.look()),
        None => false,
    }
}

/// Whether an operator of this level comes, so that one more operand follows.
pub fn sees_operator(cursor: &Cursor<'_>, level: Level) -> bool
    ensures { result ≡ reader.passes (goes.is_operator (table level)) (state_of cursor.now).rest }
{
    match cursor.token() {
        Some(token) => operator(level, token.kind.look()).is_some(),
        None => false,
    }
}

/// Reads an operator of this level.
///
/// # Errors
///
/// `Unexpected` where none comes.
pub fn operator_at(cursor: &mut Cursor<'_>, level: Level) -> Result<Operator, ParseFault>
    ensures { Reads (reader.take (λ t. operations.operator_of t (table level (look_of t.kind))) (state_of cursor.old)) result (state_of cursor.new) }
{
    if let Some(token) = cursor.token() {
        let look = token.kind.look();
        if let Some(found) = operator(level, look) {
            cursor.take();
            return Ok(Operator {
                at: token.span.first,
                operator: found,
                spaced_minus: is_sign(look, token.spaced),
            });
        }
    }
    Err(cursor.refuse())
}
