//! The steps of each part.
ghost use Rattle.std.specs.Prelude.{◌≡◌, ℕ};
ghost use Rattle.cr_pretty.specs.Parts.{all_steps, part_pieces};

use crate::part::Part;
use crate::step::Step;
use crate::step::Step::{
    Argument, Arguments, Atoms, Bare, Clauses, Constant, Constants, Fiber, Given, Insertions,
    Int32, Int64, Line, Lines, Listed, MethodName, Name, Negated, New, Nothing, Operand, Path,
    Program, Space, Text, Variable, Word,
};
use cr_grammar::Unary;
use cr_syntax::TokenLook;

/// The steps of a part, and nothing behind them.
#[rattlefmt::skip]
pub(crate) fn steps_of(part: Part) -> [Step; 4]
    ensures { (level : ℕ) → all_steps level result ≡ part_pieces level part.entry }
{
    match part {
        Part::Nothing => [Nothing, Nothing, Nothing, Nothing],
        Part::Space => [Space, Nothing, Nothing, Nothing],
        Part::Word(look) => [Word(look), Nothing, Nothing, Nothing],
        Part::Name(name) => [Name(name), Nothing, Nothing, Nothing],
        Part::Constant(name) => [Constant(name), Nothing, Nothing, Nothing],
        Part::Variable(name) => [Variable(name), Nothing, Nothing, Nothing],
        Part::MethodName(name) => [MethodName(name), Nothing, Nothing, Nothing],
        Part::New => [New, Nothing, Nothing, Nothing],
        Part::Fiber => [Fiber, Nothing, Nothing, Nothing],
        Part::Parameter(true, name) => [Variable(name), Nothing, Nothing, Nothing],
        Part::Parameter(false, name) => [Name(name), Nothing, Nothing, Nothing],
        Part::Int32(value) => [Int32(value), Nothing, Nothing, Nothing],
        Part::Int64(value) => [Int64(value), Nothing, Nothing, Nothing],
        Part::Text(text) => [Text(text), Nothing, Nothing, Nothing],
        Part::Insertions(parts, inserted) => [Insertions(parts, inserted), Nothing, Nothing, Nothing],
        Part::Bare(x) => [Bare(x), Nothing, Nothing, Nothing],
        Part::Operand(x) => [Operand(x), Nothing, Nothing, Nothing],
        Part::Argument(x) => [Argument(x), Nothing, Nothing, Nothing],
        Part::Prefixed(Unary::Not, x) => [Word(TokenLook::Bang), Operand(x), Nothing, Nothing],
        Part::Prefixed(Unary::Negate, x) => [Word(TokenLook::Minus), Negated(x), Nothing, Nothing],
        Part::Receiver(None) => [Nothing, Nothing, Nothing, Nothing],
        Part::Receiver(Some(x)) => [Operand(x.get()), Word(TokenLook::Dot), Nothing, Nothing],
        Part::Block(None) => [Nothing, Nothing, Nothing, Nothing],
        Part::Block(Some(x)) => [Space, Bare(x.get()), Nothing, Nothing],
        Part::Restriction(None) => [Nothing, Nothing, Nothing, Nothing],
        Part::Restriction(Some(x)) => [Space, Word(TokenLook::Colon), Space, Bare(x.get())],
        Part::OfType(None) => [Nothing, Nothing, Nothing, Nothing],
        Part::OfType(Some(x)) => [Space, Word(TokenLook::Of), Space, Bare(x.get())],
        Part::Gift(None) => [Nothing, Nothing, Nothing, Nothing],
        Part::Gift(Some(x)) => [Space, Given(x.get()), Nothing, Nothing],
        Part::ReceivedAs(None) => [Nothing, Nothing, Nothing, Nothing],
        Part::ReceivedAs(Some(x)) => [Bare(x.get()), Space, Word(TokenLook::Equal), Space],
        Part::Superclass(None) => [Nothing, Nothing, Nothing, Nothing],
        Part::Superclass(Some(name)) => [Space, Word(TokenLook::Less), Space, Constant(name)],
        Part::Question(true) => [Word(TokenLook::Question), Nothing, Nothing, Nothing],
        Part::Question(false) => [Nothing, Nothing, Nothing, Nothing],
        Part::Arguments(list) => {
            if list.is_empty() {
                return [Nothing, Nothing, Nothing, Nothing];
            }
            [Word(TokenLook::OpenParenthesis), Arguments(list), Word(TokenLook::CloseParenthesis), Nothing]
        }
        Part::Listed(list) => [Arguments(list), Nothing, Nothing, Nothing],
        Part::ListedBare(list) => [Listed(list), Nothing, Nothing, Nothing],
        Part::Parenthesized(list) => {
            if list.is_empty() {
                return [Nothing, Nothing, Nothing, Nothing];
            }
            [Word(TokenLook::OpenParenthesis), Listed(list), Word(TokenLook::CloseParenthesis), Nothing]
        }
        Part::BlockParameters(list) => {
            if list.is_empty() {
                return [Nothing, Nothing, Nothing, Nothing];
            }
            [Space, Word(TokenLook::Pipe), Listed(list), Word(TokenLook::Pipe)]
        }
        Part::Atoms(list) => [Atoms(list), Nothing, Nothing, Nothing],
        Part::Path(names) => [Path(names), Nothing, Nothing, Nothing],
        Part::Constants(names) => {
            if names.is_empty() {
                return [Nothing, Nothing, Nothing, Nothing];
            }
            [Word(TokenLook::OpenParenthesis), Constants(names), Word(TokenLook::CloseParenthesis), Nothing]
        }
        Part::Program(list) => [Program(list), Nothing, Nothing, Nothing],
        Part::Lines(list) => [Lines(list), Nothing, Nothing, Nothing],
        Part::Clauses(list) => [Clauses(list), Nothing, Nothing, Nothing],
        Part::Else(None) => [Nothing, Nothing, Nothing, Nothing],
        Part::Else(Some(list)) => [Line, Word(TokenLook::Else), Lines(list), Nothing],
        Part::End => [Line, Word(TokenLook::KeywordEnd), Nothing, Nothing],
    }
}
