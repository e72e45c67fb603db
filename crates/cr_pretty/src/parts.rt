//! The parts of each construct.
ghost use Rattle.std.specs.Prelude.{◌≡◌, ℕ};
ghost use Rattle.cr_pretty.specs.Layout.{bare, laid};
ghost use Rattle.cr_pretty.specs.Parts.{all_pieces};

use crate::part::Part;
use crate::part::Part::{
    Argument, Arguments, Atoms, Bare, Block, BlockParameters, Clauses, Constant, Constants, Else,
    End, Fiber, Gift, Insertions, Int32, Int64, Lines, Listed, ListedBare, MethodName, Name, New,
    Nothing, OfType, Operand, Parameter, Parenthesized, Path, Prefixed, Program, Question,
    ReceivedAs, Receiver, Restriction, Space, Superclass, Text, Variable, Word,
};
use crate::words::{accessor_look, assignment_look, binary_look, if_look, while_look};
use cr_grammar::Tree;
use cr_syntax::TokenLook;

/// The parts of a construct, and nothing behind them.
#[rattlefmt::skip]
pub(crate) fn parts_of(tree: &Tree) -> [Part; 7]
    ensures { (level : ℕ) → all_pieces level result ≡ bare level (laid tree.now) }
{
    match tree {
        Tree::Statements { list } =>
            [Program(list), Nothing, Nothing, Nothing, Nothing, Nothing, Nothing],
        Tree::Union { atoms } =>
            [Atoms(atoms), Nothing, Nothing, Nothing, Nothing, Nothing, Nothing],
        Tree::Block { parameters, body } =>
            [Word(TokenLook::Do), BlockParameters(parameters), Lines(body), End, Nothing, Nothing, Nothing],
        Tree::Pair { key, value } =>
            [Argument(key.get()), Space, Word(TokenLook::Arrow), Space, Argument(value.get()), Nothing, Nothing],
        Tree::Branch { condition, body, .. } =>
            [Word(TokenLook::Elsif), Space, Bare(condition.get()), Lines(body), Nothing, Nothing, Nothing],
        Tree::In { types, body, .. } =>
            [Word(TokenLook::In), Space, ListedBare(types), Lines(body), Nothing, Nothing, Nothing],
        Tree::When { target, operation, body, .. } =>
            [Word(TokenLook::When), Space, ReceivedAs(target), Bare(operation.get()), Lines(body), Nothing, Nothing],
        Tree::Atom { path, arguments, .. } =>
            [Path(path), Parenthesized(arguments), Nothing, Nothing, Nothing, Nothing, Nothing],
        Tree::Parameter { instance, name, restriction, .. } =>
            [Parameter(*instance, name), Restriction(restriction), Nothing, Nothing, Nothing, Nothing, Nothing],
        Tree::Accessor { name, of, .. } =>
            [Name(name), Restriction(of), Nothing, Nothing, Nothing, Nothing, Nothing],
        Tree::Int32 { value, .. } =>
            [Int32(*value), Nothing, Nothing, Nothing, Nothing, Nothing, Nothing],
        Tree::Int64 { value, .. } =>
            [Int64(*value), Nothing, Nothing, Nothing, Nothing, Nothing, Nothing],
        Tree::Text { text, .. } =>
            [Text(text), Nothing, Nothing, Nothing, Nothing, Nothing, Nothing],
        Tree::Insertions { parts, inserted, .. } =>
            [Insertions(parts, inserted), Nothing, Nothing, Nothing, Nothing, Nothing, Nothing],
        Tree::Nil { .. } =>
            [Word(TokenLook::Nil), Nothing, Nothing, Nothing, Nothing, Nothing, Nothing],
        Tree::True { .. } =>
            [Word(TokenLook::True), Nothing, Nothing, Nothing, Nothing, Nothing, Nothing],
        Tree::False { .. } =>
            [Word(TokenLook::False), Nothing, Nothing, Nothing, Nothing, Nothing, Nothing],
        Tree::KeywordSelf { .. } =>
            [Word(TokenLook::KeywordSelf), Nothing, Nothing, Nothing, Nothing, Nothing, Nothing],
        Tree::InstanceVariable { name, .. } =>
            [Variable(name), Nothing, Nothing, Nothing, Nothing, Nothing, Nothing],
        Tree::Array { elements, element, .. } =>
            [Word(TokenLook::OpenBracket), Listed(elements), Word(TokenLook::CloseBracket), OfType(element), Nothing, Nothing, Nothing],
        Tree::Hash { entries, entry, .. } =>
            [Word(TokenLook::OpenBrace), ListedBare(entries), Word(TokenLook::CloseBrace), OfType(entry), Nothing, Nothing, Nothing],
        Tree::Call { receiver, name, arguments, block, .. } =>
            [Receiver(receiver), Name(name), Arguments(arguments), Block(block), Nothing, Nothing, Nothing],
        Tree::Index { receiver, arguments, question, .. } =>
            [Operand(receiver.get()), Word(TokenLook::OpenBracket), Listed(arguments), Word(TokenLook::CloseBracket), Question(*question), Nothing, Nothing],
        Tree::IsNil { value, .. } =>
            [Operand(value.get()), Word(TokenLook::Dot), Word(TokenLook::IsNil), Nothing, Nothing, Nothing, Nothing],
        Tree::IsA { value, of, .. } =>
            [Operand(value.get()), Word(TokenLook::Dot), Word(TokenLook::IsA), Word(TokenLook::OpenParenthesis), Bare(of.get()), Word(TokenLook::CloseParenthesis), Nothing],
        Tree::New { class, question, arguments, block, .. } =>
            [Bare(class.get()), Question(*question), Word(TokenLook::Dot), New, Arguments(arguments), Block(block), Nothing],
        Tree::Pause { .. } =>
            [Fiber, Word(TokenLook::Dot), Word(TokenLook::Yield), Nothing, Nothing, Nothing, Nothing],
        Tree::Yield { arguments, .. } =>
            [Word(TokenLook::Yield), Arguments(arguments), Nothing, Nothing, Nothing, Nothing, Nothing],
        Tree::Super { arguments, .. } =>
            [Word(TokenLook::Super), Word(TokenLook::OpenParenthesis), Listed(arguments), Word(TokenLook::CloseParenthesis), Nothing, Nothing, Nothing],
        Tree::BareSuper { .. } =>
            [Word(TokenLook::Super), Nothing, Nothing, Nothing, Nothing, Nothing, Nothing],
        Tree::Spawn { context, body, .. } =>
            [Receiver(context), Word(TokenLook::Spawn), Space, Word(TokenLook::Do), Lines(body), End, Nothing],
        Tree::Class { name, parameters, superclass, members, .. } =>
            [Word(TokenLook::Class), Space, Constant(name), Constants(parameters), Superclass(superclass), Lines(members), End],
        Tree::Module { name, members, .. } =>
            [Word(TokenLook::Module), Space, Constant(name), Lines(members), End, Nothing, Nothing],
        Tree::Include { name, .. } =>
            [Word(TokenLook::Include), Space, Constant(name), Nothing, Nothing, Nothing, Nothing],
        Tree::Declaration { name, of, .. } =>
            [Variable(name), Space, Word(TokenLook::Colon), Space, Bare(of.get()), Nothing, Nothing],
        Tree::Accessors { property, accessors, .. } =>
            [Word(accessor_look(*property)), Space, ListedBare(accessors), Nothing, Nothing, Nothing, Nothing],
        Tree::Def { name, parameters, result, body, .. } =>
            [Word(TokenLook::Def), Space, MethodName(name), Parenthesized(parameters), Restriction(result), Lines(body), End],
        Tree::Binary { operator, left, right, .. } =>
            [Operand(left.get()), Space, Word(binary_look(*operator)), Space, Operand(right.get()), Nothing, Nothing],
        Tree::Unary { operator, operand, .. } =>
            [Prefixed(*operator, operand.get()), Nothing, Nothing, Nothing, Nothing, Nothing, Nothing],
        Tree::While { until, condition, body, .. } =>
            [Word(while_look(*until)), Space, Bare(condition.get()), Lines(body), End, Nothing, Nothing],
        Tree::Case { value, clauses, .. } =>
            [Word(TokenLook::Case), Space, Bare(value.get()), Clauses(clauses), End, Nothing, Nothing],
        Tree::Select { clauses, otherwise, .. } =>
            [Word(TokenLook::Select), Clauses(clauses), Else(otherwise), End, Nothing, Nothing, Nothing],
        Tree::If { unless, condition, body, others, otherwise, .. } =>
            [Word(if_look(*unless)), Space, Bare(condition.get()), Lines(body), Clauses(others), Else(otherwise), End],
        Tree::Assign { target, operator, value, .. } =>
            [Bare(target.get()), Space, Word(assignment_look(*operator)), Space, Bare(value.get()), Nothing, Nothing],
        Tree::Return { value, .. } =>
            [Word(TokenLook::Return), Gift(value), Nothing, Nothing, Nothing, Nothing, Nothing],
        Tree::Next { value, .. } =>
            [Word(TokenLook::Next), Gift(value), Nothing, Nothing, Nothing, Nothing, Nothing],
        Tree::Break { .. } =>
            [Word(TokenLook::Break), Nothing, Nothing, Nothing, Nothing, Nothing, Nothing],
    }
}
