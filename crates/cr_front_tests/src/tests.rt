//! Texts, and what the parser answers to them.

mod calls;
mod hostile;
mod layouts;
mod prelude;
mod refusals;
mod rewriting;
mod shape;
mod trees;

use cr_decl::program;
use cr_descent::tokens_end_once;
use cr_grammar::Tree;
use cr_lex::tokens;
use cr_pretty::write_tree;
use cr_readers::ParseFault;
use cr_syntax::MAX_SOURCE_BYTES;
use shape::shape;
use std::alloc::{AllocError, Global};
use std::process::Abort;
use std::test::Fail;

fn answer(rt: &impl Abort, alloc: Global, text: &str) -> Result<Result<Tree, ParseFault>, Fail> {
    let bytes = text.as_bytes();
    assert!(rt; bytes.len() <= MAX_SOURCE_BYTES);
    let list = tokens(alloc, bytes)?;
    tokens_end_once();
    Ok(program(alloc, list.as_slice()))
}

/// Why a text is no program, if it is none.
fn fault(rt: &impl Abort, alloc: Global, text: &str) -> Result<Option<ParseFault>, Fail> {
    Ok(answer(rt, alloc, text)?.err())
}

fn shown(alloc: Global, answer: Result<Tree, ParseFault>) -> Result<String, AllocError> {
    match answer {
        Ok(tree) => shape(alloc, &tree),
        Err(fault) => format!(in alloc; "{fault:?}"),
    }
}

fn shapes_as_wanted(rt: &impl Abort, alloc: Global, rows: &[(&str, &str)]) -> Result<(), Fail> {
    for (text, want) in rows {
        let got = shown(alloc, answer(rt, alloc, text)?)?;
        assert_eq!(rt; got.as_str(), *want, "at {text}");
    }
    Ok(())
}

fn layout_of(alloc: Global, tree: &Tree) -> Result<Vec<u8>, Fail> {
    Ok(write_tree(alloc, tree)?)
}

fn words_of(alloc: Global, fault: ParseFault) -> Result<Vec<u8>, Fail> {
    Ok(format!(in alloc; "{fault:?}")?.into_bytes())
}

/// The layout of the program, or the fault in words.
fn laid_out(alloc: Global, answer: Result<Tree, ParseFault>) -> Result<Vec<u8>, Fail> {
    match answer {
        Ok(tree) => layout_of(alloc, &tree),
        Err(fault) => words_of(alloc, fault),
    }
}

/// Each text is laid out as its row says, and what is laid out is laid out as it stands.
fn laid_out_as_wanted(rt: &impl Abort, alloc: Global, rows: &[(&str, &str)]) -> Result<(), Fail> {
    for (text, want) in rows {
        let got = laid_out(alloc, answer(rt, alloc, text)?)?;
        assert!(rt; got.as_slice() == want.as_bytes(), "at {text}");
        let again = laid_out(alloc, answer(rt, alloc, want)?)?;
        assert!(rt; again.as_slice() == want.as_bytes(), "at {want}");
    }
    Ok(())
}

/// So many times a text, between two others.
fn repeated(
    alloc: Global,
    before: &str,
    count: usize,
    text: &str,
    behind: &str,
) -> Result<String, AllocError> {
    let mut out = String::from_str(alloc, before)?;
    for _ in 0..count {
        out.push_str(text)?;
    }
    out.push_str(behind)?;
    Ok(out)
}
