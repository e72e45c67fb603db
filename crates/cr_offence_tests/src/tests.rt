// Texts, each with the code and place of its first offence that names alone decide, or the shapes of rows, or with none.
use cr_ancestors::AncestorsFault;
use cr_base::{NoMemory, NodeId};
use cr_core::CoreTree;
use cr_decl::program;
use cr_descent::tokens_end_once;
use cr_grammar::Tree;
use cr_lex::tokens;
use cr_lowering::core_of;
use cr_names::{What, first_offence};
use cr_shapes::What as Shape;
use cr_syntax::MAX_SOURCE_BYTES;
use cr_tables::Classes;
use sqlite_items::Boxed;
use std::alloc::Global;
use std::process::Abort;
use std::test::Fail;

fn tree_of(rt: &impl Abort, alloc: Global, text: &str) -> Result<Boxed<Tree>, Fail> {
    let bytes = text.as_bytes();
    assert!(rt; bytes.len() <= MAX_SOURCE_BYTES);
    let list = tokens(alloc, bytes)?;
    tokens_end_once();
    let tree = program(alloc, list.as_slice())?;
    Ok(Boxed::new(alloc, tree)?)
}

fn code(what: What) -> u32 {
    match what {
        What::UnknownClass => 1,
        What::Twice => 2,
        What::CyclicParent => 3,
        What::BadArity => 4,
    }
}

fn shape_code(what: Shape) -> u32 {
    match what {
        Shape::NeedType => 6,
        Shape::YieldInSpawn => 8,
        Shape::TypeTooDeep => 9,
    }
}

// Its code and place, 0 where there is none, and `p` before the place of one that stands in the prelude.
fn line(alloc: Global, core: &CoreTree, offence: Option<(u32, NodeId)>) -> Result<String, Fail> {
    let Some((code, node)) = offence else {
        return Ok(format!(in alloc; "0")?);
    };
    if (node.0 as usize) >= core.len() {
        return Ok(format!(in alloc; "no row")?);
    }
    let place = core.row(node).place;
    let prelude = if place.prelude { "p" } else { "" };
    Ok(format!(in alloc; "{code} {prelude}{}", place.at)?)
}

fn of_names(alloc: Global, core: &CoreTree) -> Result<String, Fail> {
    let offence = first_offence(alloc, core)?;
    line(alloc, core, offence.map(|it| (code(it.what), it.node)))
}

fn of_shapes(alloc: Global, core: &CoreTree) -> Result<String, Fail> {
    let offence = cr_shapes::first_offence(core);
    line(
        alloc,
        core,
        offence.map(|it| (shape_code(it.what), it.node)),
    )
}

fn core_tree(rt: &impl Abort, alloc: Global, prelude: &Tree, text: &str) -> Result<CoreTree, Fail> {
    let tree = tree_of(rt, alloc, text)?;
    Ok(core_of(alloc, prelude, tree.get())?)
}

// Whether tables have classes for it: not so where one stands above itself.
fn has_classes(alloc: Global, core: &CoreTree) -> Result<bool, Fail> {
    match Classes::of(alloc, core) {
        Ok(_) => Ok(true),
        Err(AncestorsFault::Cyclic) => Ok(false),
        Err(AncestorsFault::NoMemory) => Err(NoMemory.into()),
    }
}

fn as_wanted(rt: &impl Abort, alloc: Global, rows: &[(&str, &str)]) -> Result<(), Fail> {
    let prelude = Boxed::new(alloc, cr_prelude::tree(alloc)?)?;
    for (text, want) in rows {
        let core = core_tree(rt, alloc, prelude.get(), text)?;
        let got = of_names(alloc, &core)?;
        assert_eq!(rt; got.as_str(), *want, "at {text}");
    }
    Ok(())
}

fn shaped_as_wanted(rt: &impl Abort, alloc: Global, rows: &[(&str, &str)]) -> Result<(), Fail> {
    let prelude = Boxed::new(alloc, cr_prelude::tree(alloc)?)?;
    for (text, want) in rows {
        let core = core_tree(rt, alloc, prelude.get(), text)?;
        let got = of_shapes(alloc, &core)?;
        assert_eq!(rt; got.as_str(), *want, "at {text}");
    }
    Ok(())
}

#[test]
fn unknown_classes_are_refused(rt: HostRuntime) -> Result<(), Fail> {
    let rows = [
        ("", "0"),
        ("Foo.new", "1 0"),
        ("class A; end; A.new", "0"),
        ("A.new; class A; end", "0"),
        ("x = [] of Foo", "1 10"),
        ("class A < Foo; end", "1 0"),
        ("class A < Object; end", "1 0"),
        ("module M; end; class A < M; end", "1 15"),
        ("class B(T); end; class A < B; end", "1 17"),
        ("class A; include B; end; class B; end", "1 9"),
        ("class A; include A; end", "1 9"),
        ("class A; include M; end; module M; end", "0"),
        ("1.is_a?(Foo)", "1 8"),
        ("1.is_a?(Array)", "0"),
        ("class A(T); def f(x); x.is_a?(T); end; end", "1 30"),
        (
            "class A(T); def f(x); case x; in T; 1; end; end; end",
            "1 33",
        ),
        ("class A(T); def f(x : T) : T; x; end; end", "0"),
        ("class A(T); end; def f(x : T); end", "1 27"),
        ("class A(T); def f; T.new; end; end", "1 21"),
        ("module M; end; M.new", "1 17"),
        ("class A; end; A?.new", "1 17"),
        ("Int32.new", "1 6"),
        ("Array(Int32).new", "1 13"),
        ("Channel(Int32).new(1)", "0"),
        ("Fiber::ExecutionContext::Parallel.new(\"p\", 2)", "0"),
        ("x = 1; x.nil?", "0"),
    ];
    as_wanted(&rt, rt.alloc(), &rows)
}

#[test]
fn what_is_defined_twice_is_refused(rt: HostRuntime) -> Result<(), Fail> {
    let rows = [
        ("class Int32; end", "2 0"),
        ("module Int32; end", "2 0"),
        ("class Array(T); end", "2 0"),
        ("class A(Int32); end", "2 0"),
        ("def puts(x); end", "2 0"),
        ("class A; def raise; end; end", "2 9"),
        ("class A; getter puts : Int32; end", "2 16"),
        ("class A; end; class A; end", "0"),
        ("class A(T); end; class A; end", "2 17"),
        ("class A(T); end; class A(U); end", "2 17"),
        ("class A(T); end; class A(T); end", "0"),
        (
            "class A < B; end; class B; end; class C; end; class A < C; end",
            "2 46",
        ),
        ("class A < B; end; class B; end; class A; end", "0"),
        ("class A; end; module A; end", "2 14"),
        ("module A; end; class A; end", "2 15"),
        ("class T; end; class A(T); end", "2 14"),
        ("class A(T); end; class T; end", "2 17"),
        ("class T(T); end", "2 0"),
        ("class T; end; class K; end", "0"),
        ("module M; end; class A(M); end", "0"),
        ("class A(T); end; class B(T); end", "0"),
    ];
    as_wanted(&rt, rt.alloc(), &rows)
}

#[test]
fn cycles_and_numbers_of_arguments_are_refused(rt: HostRuntime) -> Result<(), Fail> {
    let rows = [
        ("class A < B; end; class B < A; end", "3 0"),
        ("class A < A; end", "3 0"),
        ("module M; include N; end; module N; include M; end", "3 0"),
        (
            "class C < A; end; class A < B; end; class B < A; end",
            "3 18",
        ),
        (
            "class A; end; class B < A; include M; end; module M; include N; end; module N; end",
            "0",
        ),
        ("class A(Int32) < A; end", "1 0"),
        ("ch = Channel.new", "4 5"),
        ("x = [] of Array", "4 10"),
        ("x = [] of Hash(Int32)", "4 10"),
        ("x = [] of Int32(Int32)", "4 10"),
        ("x = [] of Foo(Int32)", "1 10"),
        ("class A(T); def f(x : T(Int32)); end; end", "4 22"),
        ("module M; end; x = [] of M(Int32)", "4 25"),
        ("class A(T, U); end; A(Int32).new", "4 20"),
        ("class A(T, U); end; A(Int32, Nil).new", "0"),
        ("Array.new", "4 0"),
    ];
    as_wanted(&rt, rt.alloc(), &rows)
}

#[test]
fn shapes_of_rows_are_refused(rt: HostRuntime) -> Result<(), Fail> {
    let rows = [
        ("", "0"),
        ("x = []", "6 4"),
        ("x = {}", "6 4"),
        ("x = [1, 2_i64, true, nil]", "0"),
        ("x = [1, a]", "6 4"),
        ("x = [-1]", "0"),
        ("x = [-(1)]", "6 4"),
        ("x = [\"#{1}\"]", "6 4"),
        ("x = [[1]]", "6 4"),
        ("x = [[] of Int32]", "0"),
        ("x = [] of Int32", "0"),
        ("x = {} of String => Int32", "0"),
        ("x = {1 => 2}", "0"),
        ("x = {1 => a}", "6 4"),
        ("x = {a => 1}", "6 4"),
        ("class A; end; x = [A.new]", "0"),
        ("x = [Channel(Int32).new(1)]", "0"),
        ("def f; yield; end", "0"),
        ("def f; spawn do; yield; end; end", "8 17"),
        ("def f; spawn do; g { yield }; end; end", "8 21"),
        ("def f; g { yield }; end", "0"),
        ("x = [] of Array(Array(Array(Array(Array(Int32)))))", "0"),
        (
            "x = [] of Array(Array(Array(Array(Array(Array(Int32))))))",
            "9 10",
        ),
        ("def f; spawn do; yield; end; end; x = []", "8 17"),
    ];
    shaped_as_wanted(&rt, rt.alloc(), &rows)
}

#[test]
fn classes_of_tables_are_made_unless_one_is_above_itself(rt: HostRuntime) -> Result<(), Fail> {
    let rows = [
        ("", true),
        ("class A; end; class B < A; end; module M; end", true),
        ("class A < B; end; class B < A; end", false),
        ("module M; include N; end; module N; include M; end", false),
    ];
    let prelude = Boxed::new(rt.alloc(), cr_prelude::tree(rt.alloc())?)?;
    for (text, want) in &rows {
        let core = core_tree(&rt, rt.alloc(), prelude.get(), text)?;
        assert_eq!(rt; has_classes(rt.alloc(), &core)?, *want, "at {text}");
    }
    Ok(())
}
