//! Core forms with the places of their nodes.

use crate::tests::{shown, tree_of};
use std::alloc::Global;
use std::process::Abort;
use std::test::Fail;

fn placed_as_wanted(
    rt: &impl Abort,
    alloc: Global,
    prelude: &str,
    rows: &[(&str, &str)],
) -> Result<(), Fail> {
    let prelude = tree_of(rt, alloc, prelude)?;
    for (text, want) in rows {
        let got = shown(rt, alloc, prelude.get(), text, true)?;
        assert_eq!(rt; got.as_str(), *want, "at {text}");
    }
    Ok(())
}

#[test]
fn the_prelude_stands_before_the_program(rt: HostRuntime) -> Result<(), Fail> {
    placed_as_wanted(
        &rt,
        rt.alloc(),
        "class A; def f; x; end; end; x = 1",
        &[
            // The program sees the prelude's locals.
            (
                "class B; end; x",
                "(Class:A@p0 (Def:f@p9 x()@p16)) Class:B@0 (Seq@0 (Set:x@p29 1@p33) x@14)",
            ),
        ],
    )
}

#[test]
fn rows_have_their_places(rt: HostRuntime) -> Result<(), Fail> {
    placed_as_wanted(
        &rt,
        rt.alloc(),
        "",
        &[
            (
                "a.b(1) + c; -a",
                "(Seq@0 (.+@7 (.b@2 a()@0 1@4) c()@9) (.-@12 a()@13))",
            ),
            (
                "x = 1; x += 2",
                "(Seq@0 (Set:x@0 1@4) (Set:x@9 (.+@9 x@9 2@12)))",
            ),
            ("x ||= 1", "(Or@2 x@2 (Set:x@2 1@6))"),
            ("a != b", "(Not@2 (.==@2 a()@0 b()@5))"),
            ("a.x = 1", "(.x=@2 a()@0 1@6)"),
            (
                "a.x += 1",
                "(Seq@4 (Set:%0@4 a()@0) (.x=@4 %0@4 (.+@4 (.x@4 %0@4) 1@7)))",
            ),
            (
                "a[0] += 1",
                "(Seq@5 (Set:%0@5 a()@0) (Seq@5 (Set:%1@5 0@2) (.[]=@5 %0@5 %1@5 (.+@5 (.[]@5 %0@5 %1@5) 1@8))))",
            ),
            (
                "x = \"a#{1}\"",
                "(Set:x@0 (.+@4 (.+@4 \"a\"@4 (.to_s@4 1@8)) \"\"@4))",
            ),
            ("1 if a", "(If@0 a()@5 1@0 nil@0)"),
            (
                "if a then 1 elsif b then 2 end",
                "(If@0 a()@3 1@10 (If@12 b()@18 2@25 nil@0))",
            ),
            (
                "until a; b; end",
                "(While@0 (If@0 (Not@0 a()@6) (Seq@0 b()@9 Again@0) nil@0))",
            ),
            (
                "case a; in T then 1; end",
                "(Seq@0 (Set:%0@0 a()@5) (If@8 (IsA@8 %0@8 T@11) 1@18 (.in@0 %0@0)))",
            ),
            ("a.nil?", "(IsA@2 a()@0 Nil@2)"),
            ("puts 1", "(Puts@0 1@5)"),
            ("1; Fiber.yield", "(Seq@0 1@0 Pause@3)"),
            (
                "select; when x = a.receive; end",
                "(Select@0 (Receive@19 a()@17 (Seq@8 (Set:x@13 Received@19) nil@8)))",
            ),
            (
                "def f(x); super; end",
                "(Def:f@0 Parameter:x@6 (Super@10 x@10)) nil@0",
            ),
            (
                "class A; getter x : T; end",
                "(Class:A@0 (Declaration:@x@16 (Union@16 T@20)) (Made:x@16 @x@16)) nil@0",
            ),
            (
                "class A; def initialize(@x : T); end; end",
                "(Class:A@0 (Declaration:@x@24 (Union@24 T@29)) (Def:initialize@9 (Parameter:x@24 (Union@24 T@29)) (Set:@x@24 x@24))) nil@0",
            ),
            ("A.new(1)", "(New@2 A@0 1@6)"),
        ],
    )
}
