//! Texts, and what becomes of main.
ghost use Rattle.std.specs.Prelude.{IfOk};
ghost use Rattle.cr_steps.specs.Control.{AreNeat};

use cr_base::NoMemory;
use cr_core::{CoreTree, ScopeId};
use cr_decl::program;
use cr_descent::tokens_end_once;
use cr_fibers::{Fiber, Status};
use cr_grammar::Tree;
use cr_lex::tokens;
use cr_lowering::core_of;
use cr_steps::{Control, step_control};
use cr_syntax::MAX_SOURCE_BYTES;
use sqlite_items::Boxed;
use std::alloc::Global;
use std::process::Abort;
use std::test::Fail;

/// The core tree of a text without a prelude.
fn core_of_text(rt: &impl Abort, alloc: Global, text: &str) -> Result<CoreTree, Fail> {
    let bytes = text.as_bytes();
    assert!(rt; bytes.len() <= MAX_SOURCE_BYTES);
    let list = tokens(alloc, bytes)?;
    tokens_end_once();
    let prelude = Boxed::new(alloc, Tree::Nil { at: 0 })?;
    let tree = Boxed::new(alloc, program(alloc, list.as_slice())?)?;
    Ok(core_of(alloc, prelude.get(), tree.get())?)
}

/// Main alone.
fn main_alone(alloc: Global, tree: &CoreTree) -> Result<Vec<Fiber>, NoMemory>
    ensures { IfOk result (λ fibers. AreNeat tree.now.rows fibers.items) }
{
    let rows = tree.rows();
    let mut fibers = Vec::new(alloc);
    if tree.scope_count() == 0 {
        return Ok(fibers);
    }
    let main = Fiber::main(alloc, rows, tree.scope(ScopeId(0)))?;
    fibers.push(main)?;
    Ok(fibers)
}

/// What is told of the last of at most so many reductions of main: the first that is not made, if any is not.
fn run(
    alloc: Global,
    tree: &CoreTree,
    fibers: &mut Vec<Fiber>,
    most: u32,
) -> Result<Control, NoMemory>
    requires { AreNeat tree.now.rows fibers.old.items }
{
    for _ in 0..most {
        let told = step_control(alloc, tree, fibers, 0, false)?;
        if told != Control::Went {
            return Ok(told);
        }
    }
    Ok(Control::Went)
}

#[test]
fn a_loop_runs_to_its_end(rt: HostRuntime) -> Result<(), Fail> {
    let alloc = rt.alloc();
    let tree = core_of_text(&rt, alloc, "x = true; while x; x = false; end")?;
    let mut fibers = main_alone(alloc, &tree)?;
    // The fiber is at its end, and has no redex.
    let told = run(alloc, &tree, &mut fibers, 100)?;
    assert_eq!(rt; told, Control::Stuck);
    let ended = match fibers.get(0) {
        Some(main) => main.look().status == Status::Done,
        None => false,
    };
    assert!(rt; ended);
    Ok(())
}

#[test]
fn a_call_is_another_redex(rt: HostRuntime) -> Result<(), Fail> {
    let alloc = rt.alloc();
    let tree = core_of_text(&rt, alloc, "unless nil; foo; end")?;
    let mut fibers = main_alone(alloc, &tree)?;
    let told = run(alloc, &tree, &mut fibers, 100)?;
    assert_eq!(rt; told, Control::Other);
    Ok(())
}

#[test]
fn a_choice_is_none_of_control(rt: HostRuntime) -> Result<(), Fail> {
    let alloc = rt.alloc();
    let tree = core_of_text(&rt, alloc, "x = nil")?;
    let mut fibers = main_alone(alloc, &tree)?;
    let told = step_control(alloc, &tree, &mut fibers, 0, true)?;
    assert_eq!(rt; told, Control::BadChoice);
    Ok(())
}
