//! Locals and declarations, and their core forms.

use crate::tests::core_forms_as_wanted;
use std::test::Fail;

#[test]
fn locals_and_methods(rt: HostRuntime) -> Result<(), Fail> {
    core_forms_as_wanted(
        &rt,
        rt.alloc(),
        &[
            // A local is a parameter, or assigned before in the text of its scope or of one around it.
            ("x; x = x; x", "(Seq x() (Seq (Set:x x) x))"),
            (
                "x = 1; x(2); x -1; x.x",
                "(Seq (Set:x 1) (Seq (x 2) (Seq (x -1) (.x x))))",
            ),
            ("a((x = 1), x); x", "(Seq (a (Set:x 1) x) x)"),
            (
                "if a then x = 1 else x end; unless a then y = 1 else y end",
                "(Seq (If a() (Set:x 1) x) (If a() y (Set:y 1)))",
            ),
            (
                "x = 1; f { x = 2; y = x; g { |z| y += x + z } }; y",
                "(Seq (Set:x 1) (Seq (f (Block (Seq (Set:x^1 2) (Seq (Set:y x^1) (g (Block Parameter:z (Set:y^1 (.+ y^1 (.+ x^2 z))))))))) y()))",
            ),
            (
                "f { x = 1 }; f { x }; x = 1; spawn { x }",
                "(Seq (f (Block (Set:x 1))) (Seq (f (Block x())) (Seq (Set:x 1) (Spawn (Block x^1)))))",
            ),
            (
                "x = 1; f(x) { |x| x }; f { a.y += x }",
                "(Seq (Set:x 1) (Seq (f x (Block Parameter:x x)) (f (Block (Seq (Set:%0 a()) (.y= %0 (.+ (.y %0) x^1)))))))",
            ),
            ("x = 1; def f; x; end", "(Def:f x()) (Set:x 1)"),
            // Methods.
            (
                "def f(x : A | B?, y) : C(D); x; y; end",
                "(Def:f (Parameter:x (Union A B Nil)) Parameter:y (Union (C (Union D))) (Seq x y)) nil",
            ),
            ("1; def +(x); end; 2", "(Def:+ Parameter:x nil) (Seq 1 2)"),
            (
                "def f(x); y = 1; yield x, y; return if y; return x; end",
                "(Def:f Parameter:x (Seq (Set:y 1) (Seq (Yield x y) (Seq (If y (Return nil) nil) (Return x))))) nil",
            ),
            // `super` alone has the parameters of its method.
            (
                "def f(x, y); z = 1; super; super(); super z; end",
                "(Def:f Parameter:x Parameter:y (Seq (Set:z 1) (Seq (Super x y) (Seq Super (Super z))))) nil",
            ),
            (
                "def f(x); g { |y| super }; end",
                "(Def:f Parameter:x (g (Block Parameter:y (Super x^1)))) nil",
            ),
        ],
    )
}

#[test]
fn classes_and_modules(rt: HostRuntime) -> Result<(), Fail> {
    core_forms_as_wanted(
        &rt,
        rt.alloc(),
        &[
            (
                "class A(K, V) < B; include M; @x : K | V; end",
                "(Class:A<B K V Include:M (Declaration:@x (Union K V))) nil",
            ),
            (
                "module M; include N; def f; self; end; end; class A; end",
                "(Module:M Include:N (Def:f self)) Class:A nil",
            ),
            (
                "class A; def f; @x = 1; @x += 2; @y ||= @x; end; end",
                "(Class:A (Def:f (Seq (Set:@x 1) (Seq (Set:@x (.+ @x 2)) (Or @y (Set:@y @x)))))) nil",
            ),
            (
                "class A; def f; case @x; in T then 1; end; end; end",
                "(Class:A (Def:f (Seq (Set:%0 @x) (If (IsA %0 T) 1 (.in %0))))) nil",
            ),
            // Instance variables as parameters.
            (
                "class A; def initialize(@x : T); end; end",
                "(Class:A (Declaration:@x (Union T)) (Def:initialize (Parameter:x (Union T)) (Set:@x x))) nil",
            ),
            (
                "class A; def initialize(@x : T?, y, @z); super; @y = y; end; end",
                "(Class:A (Declaration:@x (Union T Nil)) (Def:initialize (Parameter:x (Union T Nil)) Parameter:y Parameter:z (Seq (Set:@x x) (Seq (Set:@z z) (Seq (Super x y z) (Set:@y y)))))) nil",
            ),
            // `getter` and `property`.
            (
                "class A; getter x : T; end",
                "(Class:A (Declaration:@x (Union T)) (Made:x @x)) nil",
            ),
            (
                "class A; property x : T; end",
                "(Class:A (Declaration:@x (Union T)) (Made:x @x) (Made:x= (Parameter:x (Union T)) (Set:@x x))) nil",
            ),
            (
                "class A; getter x, y : T?; property z; end",
                "(Class:A (Made:x @x) (Declaration:@y (Union T Nil)) (Made:y @y) (Made:z @z) (Made:z= Parameter:z (Set:@z z))) nil",
            ),
        ],
    )
}
