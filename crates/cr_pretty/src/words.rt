//! The words of operators and constructs.
ghost use Rattle.std.specs.Prelude.{◌≡◌};
ghost use Rattle.cr_pretty.specs.Layout.{accessor_look as look_of_accessor, assignment_look as look_of_assignment, binary_look as look_of_binary, if_look as look_of_if, while_look as look_of_while};

use cr_grammar::{Assignment, Binary};
use cr_syntax::TokenLook;

/// The operator between two operands.
pub(crate) fn binary_look(operator: Binary) -> TokenLook
    ensures { result ≡ look_of_binary operator }
{
    match operator {
        Binary::Or => TokenLook::OrOr,
        Binary::And => TokenLook::AndAnd,
        Binary::Equal => TokenLook::EqualEqual,
        Binary::NotEqual => TokenLook::NotEqual,
        Binary::Less => TokenLook::Less,
        Binary::LessEqual => TokenLook::LessEqual,
        Binary::Greater => TokenLook::Greater,
        Binary::GreaterEqual => TokenLook::GreaterEqual,
        Binary::ShiftLeft => TokenLook::ShiftLeft,
        Binary::Plus => TokenLook::Plus,
        Binary::Minus => TokenLook::Minus,
        Binary::WrappingPlus => TokenLook::WrappingPlus,
        Binary::WrappingMinus => TokenLook::WrappingMinus,
        Binary::Star => TokenLook::Star,
        Binary::SlashSlash => TokenLook::SlashSlash,
        Binary::Percent => TokenLook::Percent,
        Binary::WrappingStar => TokenLook::WrappingStar,
    }
}

/// The operator of an assignment.
pub(crate) fn assignment_look(operator: Assignment) -> TokenLook
    ensures { result ≡ look_of_assignment operator }
{
    match operator {
        Assignment::Plain => TokenLook::Equal,
        Assignment::Plus => TokenLook::PlusEqual,
        Assignment::Minus => TokenLook::MinusEqual,
        Assignment::Star => TokenLook::StarEqual,
        Assignment::SlashSlash => TokenLook::SlashSlashEqual,
        Assignment::Percent => TokenLook::PercentEqual,
        Assignment::Or => TokenLook::OrOrEqual,
    }
}

/// `if` or `unless`
pub(crate) fn if_look(unless: bool) -> TokenLook
    ensures { result ≡ look_of_if unless }
{
    if unless {
        TokenLook::Unless
    } else {
        TokenLook::If
    }
}

/// `while` or `until`
pub(crate) fn while_look(until: bool) -> TokenLook
    ensures { result ≡ look_of_while until }
{
    if until {
        TokenLook::Until
    } else {
        TokenLook::While
    }
}

/// `getter` or `property`
pub(crate) fn accessor_look(property: bool) -> TokenLook
    ensures { result ≡ look_of_accessor property }
{
    if property {
        TokenLook::Property
    } else {
        TokenLook::Getter
    }
}
