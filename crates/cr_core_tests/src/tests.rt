//! Texts, and the core trees that they have.

mod core_line;
mod declarations;
mod places;
mod scopes;
mod terms;

use core_line::core_line;
use cr_core::CoreTree;
use cr_decl::program;
use cr_descent::tokens_end_once;
use cr_grammar::Tree;
use cr_lex::tokens;
use cr_lowering::core_of;
use cr_syntax::MAX_SOURCE_BYTES;
use sqlite_items::Boxed;
use std::alloc::Global;
use std::process::Abort;
use std::test::Fail;

fn tree_of(rt: &impl Abort, alloc: Global, text: &str) -> Result<Boxed<Tree>, Fail> {
    let bytes = text.as_bytes();
    assert!(rt; bytes.len() <= MAX_SOURCE_BYTES);
    let list = tokens(alloc, bytes)?;
    tokens_end_once();
    let tree = program(alloc, list.as_slice())?;
    Ok(Boxed::new(alloc, tree)?)
}

fn no_prelude(alloc: Global) -> Result<Boxed<Tree>, Fail> {
    Ok(Boxed::new(alloc, Tree::Nil { at: 0 })?)
}

fn core_with(rt: &impl Abort, alloc: Global, prelude: &Tree, text: &str) -> Result<CoreTree, Fail> {
    let tree = tree_of(rt, alloc, text)?;
    Ok(core_of(alloc, prelude, tree.get())?)
}

/// The core tree of a text without a prelude.
fn core_alone(rt: &impl Abort, alloc: Global, text: &str) -> Result<CoreTree, Fail> {
    let prelude = no_prelude(alloc)?;
    core_with(rt, alloc, prelude.get(), text)
}

/// The line of a text's core tree.
fn shown(
    rt: &impl Abort,
    alloc: Global,
    prelude: &Tree,
    text: &str,
    places: bool,
) -> Result<String, Fail> {
    let core = core_with(rt, alloc, prelude, text)?;
    Ok(core_line(alloc, &core, places)?)
}

/// Each text has the core tree that its row says, without places.
fn core_forms_as_wanted(rt: &impl Abort, alloc: Global, rows: &[(&str, &str)]) -> Result<(), Fail> {
    let prelude = no_prelude(alloc)?;
    for (text, want) in rows {
        let got = shown(rt, alloc, prelude.get(), text, false)?;
        assert_eq!(rt; got.as_str(), *want, "at {text}");
    }
    Ok(())
}
