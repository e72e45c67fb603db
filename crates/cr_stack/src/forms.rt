//! Which parts of a form are reduced before it, and which forms are values: a match a table of the meaning.
ghost use Rattle.std.specs.Prelude.{◌≡◌, length, slice_get, IfOk, IfSome};
ghost use Rattle.cr_core.specs.Tree.{text_of, HasText};
ghost use Rattle.cr_meaning.specs.World.{World};
ghost use Rattle.cr_meaning.specs.Redex as m;
ghost use Rattle.cr_meaning.specs.Term as t;
ghost use Rattle.cr_stack.specs.Neat as neat;

use cr_base::NoMemory;
use cr_core::{CoreTree, Form, TextId};
use cr_value::{Text, Value};
use std::alloc::Global;

/// Whether a form is a choice among clauses.
pub(crate) fn is_choice(form: Form) -> bool
    ensures { result ≡ neat.is_choice form }
{
    matches!(form, Form::Select { .. })
}

/// How many parts stand before the first that is reduced.
pub(crate) fn skipped(form: Form) -> usize
    ensures { result ≡ m.skipped form }
{
    match form {
        Form::New { .. } => 1,
        _ => 0,
    }
}

/// Up to which part they are reduced, of so many.
pub(crate) fn last_reduced(form: Form, parts: usize) -> usize
    ensures { result ≡ m.last_reduced form parts }
{
    match form {
        Form::Call { block, .. } | Form::New { block, .. } => less(1, block, parts),
        Form::Array { of } => less(1, of, parts),
        Form::Hash { of } => less(2, of, parts),
        Form::Select { otherwise } => less(1, otherwise, parts),
        Form::Spawn { context } => usize::from(context),
        Form::Super | Form::Yield => parts,
        Form::Send => 2,
        Form::Set(_)
        | Form::SetField(_)
        | Form::Seq
        | Form::If
        | Form::And
        | Form::Or
        | Form::Not
        | Form::IsA
        | Form::Return
        | Form::Next
        | Form::Raise
        | Form::Puts
        | Form::Receive
        | Form::ReceiveOrNil => 1,
        _ => 0,
    }
}

fn less(by: usize, told: bool, parts: usize) -> usize
    ensures { result ≡ m.less by told parts }
{
    if told {
        parts.saturating_sub(by)
    } else {
        parts
    }
}

/// The value that a form is, if it is a literal. A text that is longer than any may be is answered with want of memory.
pub(crate) fn literal(alloc: Global, tree: &CoreTree, form: Form) -> Result<Option<Value>, NoMemory>
    requires { IfSome (text_of form) (HasText tree.now) }
    ensures { IfOk result (λ value. (P : World) → P.texts ≡ tree.now.texts → t.literal P form ≡ value) }
{
    match form {
        Form::Nil => Ok(Some(Value::Nil)),
        Form::True => Ok(Some(Value::Flag(true))),
        Form::False => Ok(Some(Value::Flag(false))),
        Form::Int32(number) => Ok(Some(Value::Small(number))),
        Form::Int64(number) => Ok(Some(Value::Big(number))),
        Form::Text(text) => Ok(Some(Value::Word(text_of(alloc, tree, text)?))),
        _ => Ok(None),
    }
}

fn text_of(alloc: Global, tree: &CoreTree, text: TextId) -> Result<Text, NoMemory>
    requires { HasText tree.now text }
    ensures { IfOk result (λ made. slice_get tree.now.texts text.0 ≡ Some made) }
{
    match Text::of(alloc, tree.text(text)) {
        Ok(made) => Ok(made),
        Err(_) => Err(NoMemory),
    }
}
