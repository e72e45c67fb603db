//! What several methods of the prelude have in common: names, lines and heads, each at its place in the text.

ghost use Rattle.std.specs.Prelude.{◌≡◌, ◌+◌, ◌<◌, ◌^◌, List, [], ◌∷◌, ◌++◌, IfOk};
ghost use Rattle.cr_grammar.specs.declared.tree.Tree.TheVariants as tree;
ghost use Rattle.cr_prelude.specs.Trees as trees;

use cr_base::NoMemory;
use cr_grammar::{Assignment, Binary, Tree};
use cr_syntax::TokenText;
use sqlite_items::{Boxed, Items};
use std::alloc::Global;

/// A list of one tree.
pub fn one(alloc: Global, tree: Boxed<Tree>) -> Result<Items<Tree>, NoMemory>
    ensures { IfOk result (λ list. list ≡ tree ∷ []) }
{
    and(Items::new(alloc), tree)
}

/// A list and one tree more.
pub fn and(list: Items<Tree>, tree: Boxed<Tree>) -> Result<Items<Tree>, NoMemory>
    ensures { IfOk result (λ longer. longer ≡ list ++ tree ∷ []) }
{
    let mut list = list;
    list.push(tree.into_inner())?;
    Ok(list)
}

/// `self`
pub fn itself(alloc: Global, at: u32) -> Result<Boxed<Tree>, NoMemory>
    ensures { IfOk result (λ made. made ≡ tree.KeywordSelf at) }
{
    Ok(Boxed::new(alloc, Tree::KeywordSelf { at })?)
}

/// `nil`
pub fn nil(alloc: Global, at: u32) -> Result<Boxed<Tree>, NoMemory>
    ensures { IfOk result (λ made. made ≡ tree.Nil at) }
{
    Ok(Boxed::new(alloc, Tree::Nil { at })?)
}

/// A name alone.
#[tactic(auto, unfolding(crate::specs::Trees::name))]
pub fn name(alloc: Global, at: u32, text: &str) -> Result<Boxed<Tree>, NoMemory>
    ensures { IfOk result (λ made. made ≡ trees.name at text.now) }
{
    let name = TokenText::of(alloc, text)?;
    let call = Tree::Call {
        at,
        receiver: None,
        name,
        arguments: Items::new(alloc),
        block: None,
    };
    Ok(Boxed::new(alloc, call)?)
}

/// `i`
#[tactic(auto, unfolding(crate::specs::Trees::counter))]
pub fn counter(alloc: Global, at: u32) -> Result<Boxed<Tree>, NoMemory>
    ensures { IfOk result (λ made. made ≡ trees.counter at) }
{
    name(alloc, at, "i")
}

/// `r[x]`, by the place of its `[`.
#[tactic(auto, unfolding(crate::specs::Trees::element))]
pub fn element(
    alloc: Global,
    at: u32,
    receiver: Boxed<Tree>,
    text: &str,
) -> Result<Boxed<Tree>, NoMemory>
    requires { at + 1 < 2 ^ 32 }
    ensures { IfOk result (λ made. made ≡ trees.element at receiver text.now) }
{
    let arguments = one(alloc, name(alloc, at + 1, text)?)?;
    let index = Tree::Index {
        at,
        receiver,
        arguments,
        question: false,
    };
    Ok(Boxed::new(alloc, index)?)
}

/// `yield` with arguments.
pub fn yields(alloc: Global, at: u32, arguments: Items<Tree>) -> Result<Boxed<Tree>, NoMemory>
    ensures { IfOk result (λ made. made ≡ tree.Yield at arguments) }
{
    Ok(Boxed::new(alloc, Tree::Yield { at, arguments })?)
}

/// `i = v`
#[tactic(auto, unfolding(crate::specs::Trees::begin_at))]
pub fn begin_at(alloc: Global, at: u32, value: Boxed<Tree>) -> Result<Boxed<Tree>, NoMemory>
    requires { at + 2 < 2 ^ 32 }
    ensures { IfOk result (λ made. made ≡ trees.begin_at at value) }
{
    let assign = Tree::Assign {
        at,
        target: counter(alloc, at)?,
        operator: Assignment::Plain,
        operator_at: at + 2,
        value,
    };
    Ok(Boxed::new(alloc, assign)?)
}

/// `i = 0`
#[tactic(auto, unfolding(crate::specs::Trees::begin_at_0))]
pub fn begin_at_0(alloc: Global, at: u32) -> Result<Boxed<Tree>, NoMemory>
    requires { at + 4 < 2 ^ 32 }
    ensures { IfOk result (λ made. made ≡ trees.begin_at_0 at) }
{
    let number = Tree::Int32 {
        at: at + 4,
        value: 0,
    };
    begin_at(alloc, at, Boxed::new(alloc, number)?)
}

/// `i += 1`, or `i -= 1`.
#[tactic(auto, unfolding(crate::specs::Trees::step))]
pub fn step(alloc: Global, at: u32, operator: Assignment) -> Result<Boxed<Tree>, NoMemory>
    requires { at + 5 < 2 ^ 32 }
    ensures { IfOk result (λ made. made ≡ trees.step at operator) }
{
    let number = Tree::Int32 {
        at: at + 5,
        value: 1,
    };
    let assign = Tree::Assign {
        at,
        target: counter(alloc, at)?,
        operator,
        operator_at: at + 2,
        value: Boxed::new(alloc, number)?,
    };
    Ok(Boxed::new(alloc, assign)?)
}

/// `while i < limit`
#[tactic(auto, unfolding(crate::specs::Trees::while_below))]
pub fn while_below(
    alloc: Global,
    at: u32,
    limit: Boxed<Tree>,
    body: Items<Tree>,
) -> Result<Boxed<Tree>, NoMemory>
    requires { at + 8 < 2 ^ 32 }
    ensures { IfOk result (λ made. made ≡ trees.while_below at limit body) }
{
    let condition = Tree::Binary {
        at: at + 8,
        operator: Binary::Less,
        left: counter(alloc, at + 6)?,
        right: limit,
    };
    let looping = Tree::While {
        at,
        until: false,
        condition: Boxed::new(alloc, condition)?,
        body,
    };
    Ok(Boxed::new(alloc, looping)?)
}

/// `def` of a name without parameters.
#[tactic(auto, unfolding(crate::specs::Trees::method))]
pub fn method(
    alloc: Global,
    at: u32,
    text: &str,
    body: Items<Tree>,
) -> Result<Boxed<Tree>, NoMemory>
    ensures { IfOk result (λ made. made ≡ trees.method at text.now body) }
{
    let def = Tree::Def {
        at,
        name: TokenText::of(alloc, text)?,
        parameters: Items::new(alloc),
        result: None,
        body,
    };
    Ok(Boxed::new(alloc, def)?)
}

/// `class` of a name, with the names of its type parameters.
#[tactic(auto, unfolding(crate::specs::Trees::class))]
pub fn class(
    alloc: Global,
    at: u32,
    text: &str,
    parameters: Items<TokenText>,
    members: Items<Tree>,
) -> Result<Boxed<Tree>, NoMemory>
    ensures { IfOk result (λ made. made ≡ trees.class at text.now parameters members) }
{
    let class = Tree::Class {
        at,
        name: TokenText::of(alloc, text)?,
        parameters,
        superclass: None,
        members,
    };
    Ok(Boxed::new(alloc, class)?)
}
