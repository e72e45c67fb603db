//! Forms of nodes that tell which parts are there.

ghost use Rattle.std.specs.Prelude.{◌≡◌, true, false};
ghost use Rattle.cr_core.specs.declared.form.Form.TheVariants as f;
ghost use Rattle.cr_making.specs.Declaring as d;
ghost use Rattle.cr_making.specs.Part.{is_there};
ghost use Rattle.cr_making.specs.Table.{maybe_part};

use cr_base::NameId;
use cr_core::{Form, Local, ScopeId};
use cr_grammar::Tree;
use sqlite_items::Boxed;

/// Whether the part is there.
pub fn is_there(tree: &Option<Boxed<Tree>>) -> bool
    ensures { result ≡ is_there (maybe_part tree.now) }
{
    match tree {
        Some(_) => true,
        None => false,
    }
}

/// A call with a receiver and without a block.
pub fn sent_form(name: NameId) -> Form
    ensures { result ≡ f.Call name true false }
{
    Form::Call {
        name,
        receiver: true,
        block: false,
    }
}

/// A call with neither.
pub fn bare_form(name: NameId) -> Form
    ensures { result ≡ f.Call name false false }
{
    Form::Call {
        name,
        receiver: false,
        block: false,
    }
}

/// A call with a receiver and a block where they are there.
pub fn call_form(name: NameId, receiver: &Option<Boxed<Tree>>, block: &Option<Boxed<Tree>>) -> Form
    ensures { result ≡ f.Call name (is_there (maybe_part receiver.now)) (is_there (maybe_part block.now)) }
{
    Form::Call {
        name,
        receiver: is_there(receiver),
        block: is_there(block),
    }
}

/// A `new`, whether a `?` follows its class, with a block where it is there.
pub fn new_form(question: bool, block: &Option<Boxed<Tree>>) -> Form
    ensures { result ≡ f.New question (is_there (maybe_part block.now)) }
{
    Form::New {
        question,
        block: is_there(block),
    }
}

/// A `spawn`, with a context where it is there.
pub fn spawn_form(context: &Option<Boxed<Tree>>) -> Form
    ensures { result ≡ f.Spawn (is_there (maybe_part context.now)) }
{
    Form::Spawn {
        context: is_there(context),
    }
}

/// An array, with a written type where it is there.
pub fn array_form(element: &Option<Boxed<Tree>>) -> Form
    ensures { result ≡ f.Array (is_there (maybe_part element.now)) }
{
    Form::Array {
        of: is_there(element),
    }
}

/// A hash, with written types where they are there.
pub fn hash_form(entry: &Option<Boxed<Tree>>) -> Form
    ensures { result ≡ f.Hash (is_there (maybe_part entry.now)) }
{
    Form::Hash {
        of: is_there(entry),
    }
}

/// A parameter of this local, with a written type where it is there.
pub fn parameter_form(local: Local, restriction: &Option<Boxed<Tree>>) -> Form
    ensures { result ≡ f.Parameter local.slot (is_there (maybe_part restriction.now)) }
{
    Form::Parameter {
        slot: local.slot,
        restricted: is_there(restriction),
    }
}

/// A method that the text has a `def` for.
pub fn def_form(name: NameId, scope: ScopeId, restriction: &Option<Boxed<Tree>>) -> Form
    ensures { result ≡ f.Def name scope (is_there (maybe_part restriction.now)) true }
{
    Form::Def {
        name,
        scope,
        result: is_there(restriction),
        written: true,
    }
}

/// A method that a `getter` or `property` makes.
pub fn made_form(name: NameId, scope: ScopeId) -> Form
    ensures { result ≡ f.Def name scope false false }
{
    Form::Def {
        name,
        scope,
        result: false,
        written: false,
    }
}

/// What reads a parameter.
pub fn local_form(name: NameId, local: Option<Local>) -> Form
    ensures { result ≡ d.local_form name local }
{
    match local {
        Some(local) => Form::Local(local),
        None => bare_form(name),
    }
}
