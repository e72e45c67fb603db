//! A postfix, by what it may become.

ghost use Rattle.std.specs.Prelude.{◌≡◌, None};
ghost use Rattle.cr_readers.specs.Operand as spec;
ghost use Rattle.cr_words.specs.Gives.{Gives};

use crate::lists::add;
use cr_grammar::{Tree, Word};
use cr_readers::{Operand, ParseFault};
use sqlite_items::{Boxed, Items};
use std::alloc::Global;

/// A call without block.
fn call(receiver: Option<Boxed<Tree>>, name: Word, arguments: Items<Tree>) -> Tree
    ensures { result ≡ Tree.Call name.at receiver name.text arguments None }
{
    Tree::Call {
        at: name.at,
        receiver,
        name: name.text,
        arguments,
        block: None,
    }
}

/// The tree of a postfix that becomes nothing else: neither assigned nor given arguments.
///
/// # Errors
///
/// `NoMemory` where memory runs out.
pub fn whole(alloc: Global, operand: Operand) -> Result<Boxed<Tree>, ParseFault>
    ensures { Gives (spec.whole operand) result }
{
    let tree = match operand {
        Operand::Name(name) => call(None, name, Items::new(alloc)),
        Operand::Field(receiver, name) => call(Some(receiver), name, Items::new(alloc)),
        Operand::Element(at, receiver, arguments) => Tree::Index {
            at,
            receiver,
            arguments,
            question: false,
        },
        Operand::Variable(name) => Tree::InstanceVariable {
            at: name.at,
            name: name.text,
        },
        Operand::Yielding(at) => Tree::Yield {
            at,
            arguments: Items::new(alloc),
        },
        Operand::Above(at) => Tree::BareSuper { at },
        Operand::Passing(name, receiver, value) => {
            let mut arguments = Items::new(alloc);
            add(alloc, &mut arguments, value.into_inner())?;
            call(Some(receiver), name, arguments)
        }
        Operand::Whole(tree) => return Ok(tree),
    };
    Ok(Boxed::new(alloc, tree)?)
}

/// What a name becomes with the arguments in parentheses and the block that follow it.
///
/// # Errors
///
/// `NoMemory` where memory runs out.
pub fn named(
    alloc: Global,
    name: Word,
    arguments: Option<Items<Tree>>,
    block: Option<Boxed<Tree>>,
) -> Result<Operand, ParseFault>
    ensures { Gives (spec.named name arguments block) result }
{
    let arguments = match arguments {
        Some(arguments) => arguments,
        None => {
            if block.is_none() {
                return Ok(Operand::Name(name));
            }
            Items::new(alloc)
        }
    };
    let tree = Tree::Call {
        at: name.at,
        receiver: None,
        name: name.text,
        arguments,
        block,
    };
    Ok(Operand::Whole(Boxed::new(alloc, tree)?))
}

/// What `.f` behind a receiver becomes with the arguments in parentheses and the block that follow it.
///
/// # Errors
///
/// `NoMemory` where memory runs out.
pub fn linked(
    alloc: Global,
    receiver: Boxed<Tree>,
    name: Word,
    arguments: Option<Items<Tree>>,
    block: Option<Boxed<Tree>>,
) -> Result<Operand, ParseFault>
    ensures { Gives (spec.linked receiver name arguments block) result }
{
    let mut arguments = match arguments {
        Some(arguments) => arguments,
        None => {
            if block.is_none() {
                return Ok(Operand::Field(receiver, name));
            }
            Items::new(alloc)
        }
    };
    if block.is_none() && arguments.len() == 1 {
        if let Some(value) = arguments.pop() {
            let value = Boxed::new(alloc, value)?;
            return Ok(Operand::Passing(name, receiver, value));
        }
    }
    let tree = Tree::Call {
        at: name.at,
        receiver: Some(receiver),
        name: name.text,
        arguments,
        block,
    };
    Ok(Operand::Whole(Boxed::new(alloc, tree)?))
}

/// What `[a]` behind a receiver becomes, with the `?` that may follow.
///
/// # Errors
///
/// `NoMemory` where memory runs out.
pub fn indexed(
    alloc: Global,
    at: u32,
    receiver: Boxed<Tree>,
    arguments: Items<Tree>,
    question: Option<u32>,
) -> Result<Operand, ParseFault>
    ensures { Gives (spec.indexed at receiver arguments question) result }
{
    if question.is_none() {
        return Ok(Operand::Element(at, receiver, arguments));
    }
    let tree = Tree::Index {
        at,
        receiver,
        arguments,
        question: true,
    };
    Ok(Operand::Whole(Boxed::new(alloc, tree)?))
}

/// What `yield` becomes with the arguments in parentheses that follow it.
///
/// # Errors
///
/// `NoMemory` where memory runs out.
pub fn yielded(
    alloc: Global,
    at: u32,
    arguments: Option<Items<Tree>>,
) -> Result<Operand, ParseFault>
    ensures { Gives (spec.yielded at arguments) result }
{
    match arguments {
        None => Ok(Operand::Yielding(at)),
        Some(arguments) => {
            let tree = Tree::Yield { at, arguments };
            Ok(Operand::Whole(Boxed::new(alloc, tree)?))
        }
    }
}

/// What `super` becomes with the arguments in parentheses that follow it.
///
/// # Errors
///
/// `NoMemory` where memory runs out.
pub fn above(alloc: Global, at: u32, arguments: Option<Items<Tree>>) -> Result<Operand, ParseFault>
    ensures { Gives (spec.above at arguments) result }
{
    match arguments {
        None => Ok(Operand::Above(at)),
        Some(arguments) => {
            let tree = Tree::Super { at, arguments };
            Ok(Operand::Whole(Boxed::new(alloc, tree)?))
        }
    }
}
