//! The class `Int32` of the prelude.

ghost use Rattle.std.specs.Prelude.{◌≡◌, ◌+◌, ◌<◌, ◌^◌, IfOk};
ghost use Rattle.cr_prelude.specs.Trees as trees;

use crate::lines::{
    and, begin_at, begin_at_0, class, counter, itself, method, name, nil, one, step, while_below,
    yields,
};
use cr_base::NoMemory;
use cr_grammar::{Assignment, Binary, Tree};
use cr_syntax::TokenText;
use sqlite_items::{Boxed, Items};
use std::alloc::Global;

/// `def times`
#[tactic(auto, unfolding(crate::specs::Trees::times))]
fn times(alloc: Global) -> Result<Boxed<Tree>, NoMemory>
    ensures { IfOk result (λ made. made ≡ trees.times) }
{
    let arguments = one(alloc, counter(alloc, 180)?)?;
    let turn = one(alloc, yields(alloc, 174, arguments)?)?;
    let turn = and(turn, step(alloc, 188, Assignment::Plus)?)?;
    let body = one(alloc, begin_at_0(alloc, 143)?)?;
    let body = and(body, while_below(alloc, 153, itself(alloc, 163)?, turn)?)?;
    let body = and(body, nil(alloc, 207)?)?;
    method(alloc, 129, "times", body)
}

/// `i` compared with `last`.
#[tactic(auto, unfolding(crate::specs::Trees::compared_with_last))]
fn compared_with_last(
    alloc: Global,
    at: u32,
    operator_at: u32,
    comparison: Binary,
    last_at: u32,
) -> Result<Boxed<Tree>, NoMemory>
    ensures { IfOk result (λ made. made ≡ trees.compared_with_last at operator_at comparison last_at) }
{
    let operation = Tree::Binary {
        at: operator_at,
        operator: comparison,
        left: counter(alloc, at)?,
        right: name(alloc, last_at, "last")?,
    };
    Ok(Boxed::new(alloc, operation)?)
}

/// `break if i == last`
#[tactic(auto, unfolding(crate::specs::Trees::break_at_last))]
fn break_at_last(alloc: Global, at: u32) -> Result<Boxed<Tree>, NoMemory>
    requires { at + 14 < 2 ^ 32 }
    ensures { IfOk result (λ made. made ≡ trees.break_at_last at) }
{
    let leaving = Boxed::new(alloc, Tree::Break { at })?;
    let modified = Tree::If {
        at,
        unless: false,
        condition: compared_with_last(alloc, at + 9, at + 11, Binary::Equal, at + 14)?,
        body: one(alloc, leaving)?,
        others: Items::new(alloc),
        otherwise: None,
    };
    Ok(Boxed::new(alloc, modified)?)
}

/// `while true`, and below it `yield i`, `break if i == last` and the step.
#[tactic(auto, unfolding(crate::specs::Trees::until_last))]
fn until_last(alloc: Global, at: u32, operator: Assignment) -> Result<Boxed<Tree>, NoMemory>
    requires { at + 67 < 2 ^ 32 }
    ensures { IfOk result (λ made. made ≡ trees.until_last at operator) }
{
    let arguments = one(alloc, counter(alloc, at + 25)?)?;
    let turn = one(alloc, yields(alloc, at + 19, arguments)?)?;
    let turn = and(turn, break_at_last(alloc, at + 35)?)?;
    let looping = Tree::While {
        at,
        until: false,
        condition: Boxed::new(alloc, Tree::True { at: at + 6 })?,
        body: and(turn, step(alloc, at + 62, operator)?)?,
    };
    Ok(Boxed::new(alloc, looping)?)
}

/// `if i <= last` or `if i >= last`, and the loop below it.
#[tactic(auto, unfolding(crate::specs::Trees::towards_last))]
fn towards_last(
    alloc: Global,
    at: u32,
    comparison: Binary,
    operator: Assignment,
) -> Result<Boxed<Tree>, NoMemory>
    requires { at + 86 < 2 ^ 32 }
    ensures { IfOk result (λ made. made ≡ trees.towards_last at comparison operator) }
{
    let conditional = Tree::If {
        at,
        unless: false,
        condition: compared_with_last(alloc, at + 3, at + 5, comparison, at + 8)?,
        body: one(alloc, until_last(alloc, at + 19, operator)?)?,
        others: Items::new(alloc),
        otherwise: None,
    };
    Ok(Boxed::new(alloc, conditional)?)
}

/// `Int32`, as a type.
#[tactic(auto, unfolding(crate::specs::Trees::int32_type))]
fn int32_type(alloc: Global, at: u32) -> Result<Boxed<Tree>, NoMemory>
    ensures { IfOk result (λ made. made ≡ trees.int32_type at) }
{
    let mut path = Items::new(alloc);
    path.push(TokenText::of(alloc, "Int32")?)?;
    let atom = Tree::Atom {
        at,
        path,
        arguments: Items::new(alloc),
    };
    let atoms = one(alloc, Boxed::new(alloc, atom)?)?;
    Ok(Boxed::new(alloc, Tree::Union { atoms })?)
}

/// `last : Int32`
#[tactic(auto, unfolding(crate::specs::Trees::last_parameter))]
fn last_parameter(alloc: Global, at: u32) -> Result<Boxed<Tree>, NoMemory>
    requires { at + 7 < 2 ^ 32 }
    ensures { IfOk result (λ made. made ≡ trees.last_parameter at) }
{
    let parameter = Tree::Parameter {
        at,
        instance: false,
        name: TokenText::of(alloc, "last")?,
        restriction: Some(int32_type(alloc, at + 7)?),
    };
    Ok(Boxed::new(alloc, parameter)?)
}

/// `def` of a name with the parameter `last`.
#[tactic(auto, unfolding(crate::specs::Trees::method_to_last))]
fn method_to_last(
    alloc: Global,
    at: u32,
    text: &str,
    parameter_at: u32,
    body: Items<Tree>,
) -> Result<Boxed<Tree>, NoMemory>
    requires { parameter_at + 7 < 2 ^ 32 }
    ensures { IfOk result (λ made. made ≡ trees.method_to_last at text.now parameter_at body) }
{
    let def = Tree::Def {
        at,
        name: TokenText::of(alloc, text)?,
        parameters: one(alloc, last_parameter(alloc, parameter_at)?)?,
        result: None,
        body,
    };
    Ok(Boxed::new(alloc, def)?)
}

/// `def upto(last : Int32)`
#[tactic(auto, unfolding(crate::specs::Trees::upto))]
fn upto(alloc: Global) -> Result<Boxed<Tree>, NoMemory>
    ensures { IfOk result (λ made. made ≡ trees.upto) }
{
    let body = one(alloc, begin_at(alloc, 246, itself(alloc, 250)?)?)?;
    let looping = towards_last(alloc, 259, Binary::LessEqual, Assignment::Plus)?;
    let body = and(body, looping)?;
    let body = and(body, nil(alloc, 369)?)?;
    method_to_last(alloc, 219, "upto", 228, body)
}

/// `def downto(last : Int32)`
#[tactic(auto, unfolding(crate::specs::Trees::downto))]
fn downto(alloc: Global) -> Result<Boxed<Tree>, NoMemory>
    ensures { IfOk result (λ made. made ≡ trees.downto) }
{
    let body = one(alloc, begin_at(alloc, 410, itself(alloc, 414)?)?)?;
    let looping = towards_last(alloc, 423, Binary::GreaterEqual, Assignment::Minus)?;
    let body = and(body, looping)?;
    let body = and(body, nil(alloc, 533)?)?;
    method_to_last(alloc, 381, "downto", 392, body)
}

/// `class Int32`
#[tactic(auto, unfolding(crate::specs::Trees::int32))]
pub fn int32(alloc: Global) -> Result<Boxed<Tree>, NoMemory>
    ensures { IfOk result (λ made. made ≡ trees.int32) }
{
    let methods = one(alloc, times(alloc)?)?;
    let methods = and(methods, upto(alloc)?)?;
    let methods = and(methods, downto(alloc)?)?;
    class(alloc, 115, "Int32", Items::new(alloc), methods)
}
