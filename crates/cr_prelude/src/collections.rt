//! The classes `Array` and `Hash` of the prelude.

ghost use Rattle.std.specs.Prelude.{◌≡◌, codes, List, [], ◌∷◌, ◌++◌, IfOk};
ghost use Rattle.cr_prelude.specs.Trees as trees;

use crate::lines::{
    and, begin_at_0, class, counter, element, itself, method, name, nil, one, step, while_below,
    yields,
};
use cr_base::NoMemory;
use cr_grammar::{Assignment, Tree};
use cr_syntax::TokenText;
use sqlite_items::{Boxed, Items};
use std::alloc::Global;

/// `def each` of `Array`
#[tactic(auto, unfolding(crate::specs::Trees::array_each))]
fn array_each(alloc: Global) -> Result<Boxed<Tree>, NoMemory>
    ensures { IfOk result (λ made. made ≡ trees.array_each) }
{
    let item = element(alloc, 618, itself(alloc, 614)?, "i")?;
    let turn = one(alloc, yields(alloc, 608, one(alloc, item)?)?)?;
    let turn = and(turn, step(alloc, 628, Assignment::Plus)?)?;
    let body = one(alloc, begin_at_0(alloc, 577)?)?;
    let body = and(
        body,
        while_below(alloc, 587, name(alloc, 597, "size")?, turn)?,
    )?;
    let body = and(body, nil(alloc, 647)?)?;
    method(alloc, 564, "each", body)
}

/// `yield self[i], i`
#[tactic(auto, unfolding(crate::specs::Trees::yields_item_and_index))]
fn yields_item_and_index(alloc: Global) -> Result<Boxed<Tree>, NoMemory>
    ensures { IfOk result (λ made. made ≡ trees.yields_item_and_index) }
{
    let item = element(alloc, 724, itself(alloc, 720)?, "i")?;
    let arguments = and(one(alloc, item)?, counter(alloc, 729)?)?;
    yields(alloc, 714, arguments)
}

/// The lines of `each_with_index`.
#[tactic(auto, unfolding(crate::specs::Trees::lines_with_index))]
fn lines_with_index(alloc: Global) -> Result<Items<Tree>, NoMemory>
    ensures { IfOk result (λ made. made ≡ trees.lines_with_index) }
{
    let turn = one(alloc, yields_item_and_index(alloc)?)?;
    let turn = and(turn, step(alloc, 737, Assignment::Plus)?)?;
    let body = one(alloc, begin_at_0(alloc, 683)?)?;
    let body = and(
        body,
        while_below(alloc, 693, name(alloc, 703, "size")?, turn)?,
    )?;
    and(body, nil(alloc, 756)?)
}

/// `def each_with_index`
#[tactic(auto, unfolding(crate::specs::Trees::array_each_with_index))]
fn array_each_with_index(alloc: Global) -> Result<Boxed<Tree>, NoMemory>
    ensures { IfOk result (λ made. made ≡ trees.array_each_with_index) }
{
    method(alloc, 659, "each_with_index", lines_with_index(alloc)?)
}

/// A list of names and one more.
fn with_name(
    alloc: Global,
    names: Items<TokenText>,
    text: &str,
) -> Result<Items<TokenText>, NoMemory>
    ensures { IfOk result (λ list. list ≡ names ++ text.now ∷ []) }
{
    let mut names = names;
    names.push(TokenText::of(alloc, text)?)?;
    Ok(names)
}

/// `class Array(T)`
#[tactic(auto, unfolding(crate::specs::Trees::array))]
pub fn array(alloc: Global) -> Result<Boxed<Tree>, NoMemory>
    ensures { IfOk result (λ made. made ≡ trees.array) }
{
    let parameters = with_name(alloc, Items::new(alloc), "T")?;
    let methods = one(alloc, array_each(alloc)?)?;
    let methods = and(methods, array_each_with_index(alloc)?)?;
    class(alloc, 547, "Array", parameters, methods)
}

/// `list = keys`
#[tactic(auto, unfolding(crate::specs::Trees::keys_in_list))]
fn keys_in_list(alloc: Global) -> Result<Boxed<Tree>, NoMemory>
    ensures { IfOk result (λ made. made ≡ trees.keys_in_list) }
{
    let assign = Tree::Assign {
        at: 802,
        target: name(alloc, 802, "list")?,
        operator: Assignment::Plain,
        operator_at: 807,
        value: name(alloc, 809, "keys")?,
    };
    Ok(Boxed::new(alloc, assign)?)
}

/// `list.size`
#[tactic(auto, unfolding(crate::specs::Trees::list_size))]
fn list_size(alloc: Global) -> Result<Boxed<Tree>, NoMemory>
    ensures { IfOk result (λ made. made ≡ trees.list_size) }
{
    let call = Tree::Call {
        at: 843,
        receiver: Some(name(alloc, 838, "list")?),
        name: TokenText::of(alloc, "size")?,
        arguments: Items::new(alloc),
        block: None,
    };
    Ok(Boxed::new(alloc, call)?)
}

/// `k = list[i]`
#[tactic(auto, unfolding(crate::specs::Trees::next_key))]
fn next_key(alloc: Global) -> Result<Boxed<Tree>, NoMemory>
    ensures { IfOk result (λ made. made ≡ trees.next_key) }
{
    let assign = Tree::Assign {
        at: 854,
        target: name(alloc, 854, "k")?,
        operator: Assignment::Plain,
        operator_at: 856,
        value: element(alloc, 862, name(alloc, 858, "list")?, "i")?,
    };
    Ok(Boxed::new(alloc, assign)?)
}

/// `yield k, self[k]`
#[tactic(auto, unfolding(crate::specs::Trees::yields_entry))]
fn yields_entry(alloc: Global) -> Result<Boxed<Tree>, NoMemory>
    ensures { IfOk result (λ made. made ≡ trees.yields_entry) }
{
    let value = element(alloc, 885, itself(alloc, 881)?, "k")?;
    let arguments = and(one(alloc, name(alloc, 878, "k")?)?, value)?;
    yields(alloc, 872, arguments)
}

/// `def each` of `Hash`
#[tactic(auto, unfolding(crate::specs::Trees::hash_each))]
fn hash_each(alloc: Global) -> Result<Boxed<Tree>, NoMemory>
    ensures { IfOk result (λ made. made ≡ trees.hash_each) }
{
    let turn = one(alloc, next_key(alloc)?)?;
    let turn = and(turn, yields_entry(alloc)?)?;
    let turn = and(turn, step(alloc, 895, Assignment::Plus)?)?;
    let body = one(alloc, keys_in_list(alloc)?)?;
    let body = and(body, begin_at_0(alloc, 818)?)?;
    let body = and(body, while_below(alloc, 828, list_size(alloc)?, turn)?)?;
    let body = and(body, nil(alloc, 914)?)?;
    method(alloc, 789, "each", body)
}

/// `class Hash(K, V)`
#[tactic(auto, unfolding(crate::specs::Trees::hash))]
pub fn hash(alloc: Global) -> Result<Boxed<Tree>, NoMemory>
    ensures { IfOk result (λ made. made ≡ trees.hash) }
{
    let parameters = with_name(alloc, Items::new(alloc), "K")?;
    let parameters = with_name(alloc, parameters, "V")?;
    let methods = one(alloc, hash_each(alloc)?)?;
    class(alloc, 770, "Hash", parameters, methods)
}
