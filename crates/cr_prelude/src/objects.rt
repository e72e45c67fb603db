//! The classes `Object` and `Nil` of the prelude.

ghost use Rattle.std.specs.Prelude.{◌≡◌, IfOk};
ghost use Rattle.cr_prelude.specs.Trees as trees;

use crate::lines::{class, itself, method, one};
use cr_base::NoMemory;
use cr_grammar::Tree;
use cr_syntax::TokenText;
use sqlite_items::{Boxed, Items};
use std::alloc::Global;

/// `class Object`
#[tactic(auto, unfolding(crate::specs::Trees::object))]
pub fn object(alloc: Global) -> Result<Boxed<Tree>, NoMemory>
    ensures { IfOk result (λ made. made ≡ trees.object) }
{
    let body = one(alloc, itself(alloc, 32)?)?;
    let methods = one(alloc, method(alloc, 15, "not_nil!", body)?)?;
    class(alloc, 0, "Object", Items::new(alloc), methods)
}

/// The text `"Nil assertion failed"`.
#[tactic(auto, unfolding(crate::specs::Trees::message))]
fn message(alloc: Global) -> Result<Boxed<Tree>, NoMemory>
    ensures { IfOk result (λ made. made ≡ trees.message) }
{
    let text = TokenText::of(alloc, "Nil assertion failed")?;
    Ok(Boxed::new(alloc, Tree::Text { at: 82, text })?)
}

/// `raise "Nil assertion failed"`
#[tactic(auto, unfolding(crate::specs::Trees::raises))]
fn raises(alloc: Global) -> Result<Boxed<Tree>, NoMemory>
    ensures { IfOk result (λ made. made ≡ trees.raises) }
{
    let arguments = one(alloc, message(alloc)?)?;
    let call = Tree::Call {
        at: 76,
        receiver: None,
        name: TokenText::of(alloc, "raise")?,
        arguments,
        block: None,
    };
    Ok(Boxed::new(alloc, call)?)
}

/// `class Nil`
#[tactic(auto, unfolding(crate::specs::Trees::nil))]
pub fn nil_class(alloc: Global) -> Result<Boxed<Tree>, NoMemory>
    ensures { IfOk result (λ made. made ≡ trees.nil) }
{
    let body = one(alloc, raises(alloc)?)?;
    let methods = one(alloc, method(alloc, 59, "not_nil!", body)?)?;
    class(alloc, 47, "Nil", Items::new(alloc), methods)
}
