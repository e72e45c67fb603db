//! Words and operators that core forms call by name.

ghost use Rattle.std.specs.Prelude.{◌≡◌, ◌++◌, IfOk, OnOk};
ghost use Rattle.std.specs.String.{string_bytes};
ghost use Rattle.cr_making.specs.Words as spec;

use cr_base::NoMemory;
use cr_grammar::{Assignment, Binary};
use cr_syntax::TokenText;
use std::alloc::Global;

/// The method that a compound assignment calls.
pub fn assigned_text(operator: Assignment) -> &'static str
    ensures { result.now ≡ spec.assigned_operator operator }
{
    match operator {
        Assignment::Plain => "",
        Assignment::Plus => "+",
        Assignment::Minus => "-",
        Assignment::Star => "*",
        Assignment::SlashSlash => "//",
        Assignment::Percent => "%",
        Assignment::Or => "||",
    }
}

/// The method that an operator calls.
pub fn operator_text(operator: Binary) -> &'static str
    ensures { result.now ≡ spec.operator operator }
{
    match operator {
        Binary::Or => "||",
        Binary::And => "&&",
        Binary::Equal => "==",
        Binary::NotEqual => "==",
        Binary::Less => "<",
        Binary::LessEqual => "<=",
        Binary::Greater => ">",
        Binary::GreaterEqual => ">=",
        Binary::ShiftLeft => "<<",
        Binary::Plus => "+",
        Binary::Minus => "-",
        Binary::WrappingPlus => "&+",
        Binary::WrappingMinus => "&-",
        Binary::Star => "*",
        Binary::SlashSlash => "//",
        Binary::Percent => "%",
        Binary::WrappingStar => "&*",
    }
}

/// The method that an index calls.
pub fn index_text(question: bool) -> &'static str
    ensures { result.now ≡ spec.index_name question }
{
    if question { "[]?" } else { "[]" }
}

/// A word that stands for a core form where a call of it has no receiver.
#[derive(Clone, Copy, Debug, PartialEq, Eq)]
pub enum Word {
    Puts,
    Raise,
    NoWord,
}

/// What a `when` does.
#[derive(Clone, Copy, Debug, PartialEq, Eq)]
pub enum Operation {
    Send,
    Receive,
    ReceiveOrNil,
    NoOperation,
}

/// The word that a name is.
pub fn word_of(name: &str) -> Word
    ensures { result ≡ spec.word_of name.now }
{
    if name == "puts" {
        Word::Puts
    } else if name == "raise" {
        Word::Raise
    } else {
        Word::NoWord
    }
}

/// The operation that a name is.
pub fn operation_of(name: &str) -> Operation
    ensures { result ≡ spec.operation_of name.now }
{
    if name == "send" {
        Operation::Send
    } else if name == "receive" {
        Operation::Receive
    } else if name == "receive?" {
        Operation::ReceiveOrNil
    } else {
        Operation::NoOperation
    }
}

/// The names of a path with `::` between.
pub fn joined_path(alloc: Global, path: &[TokenText]) -> Result<String, NoMemory>
    ensures { IfOk result (λ text. string_bytes text ≡ spec.path_name path.now) }
{
    let Some((first, others)) = path.split_first() else {
        return Ok(String::new(alloc));
    };
    let mut text = String::from_str(alloc, first.as_str())?;
    push_names(&mut text, others)?;
    Ok(text)
}

/// Each name behind `::`.
fn push_names(text: &mut String, names: &[TokenText]) -> Result<(), NoMemory>
    ensures { OnOk result (string_bytes text.new ≡ string_bytes text.old ++ spec.path_behind names.now) }
{
    for name in names {
        text.push_str("::")?;
        text.push_str(name.as_str())?;
    }
    Ok(())
}
