//! Statements and expressions, and their core forms.

use crate::tests::core_forms_as_wanted;
use std::test::Fail;

#[test]
fn statements_and_conditions(rt: HostRuntime) -> Result<(), Fail> {
    core_forms_as_wanted(
        &rt,
        rt.alloc(),
        &[
            // Statements.
            ("", "nil"),
            ("true", "true"),
            ("nil; false", "(Seq nil false)"),
            ("1; 2_i64; \"a\"", "(Seq 1 (Seq 2_i64 \"a\"))"),
            // `if`, `elsif` and `unless`, and the modifiers.
            ("if a; end", "(If a() nil nil)"),
            (
                "if a then 1; 2; 3 else 4 end",
                "(If a() (Seq 1 (Seq 2 3)) 4)",
            ),
            (
                "if a then 1 elsif b then 2 elsif c then 3 end",
                "(If a() 1 (If b() 2 (If c() 3 nil)))",
            ),
            (
                "if a then 1 elsif b then 2 else 3 end",
                "(If a() 1 (If b() 2 3))",
            ),
            ("unless a then 1 end", "(If a() nil 1)"),
            ("unless a then 1 else 2 end", "(If a() 2 1)"),
            ("x = 1 if x", "(If x() (Set:x 1) nil)"),
            ("x = 1 unless x", "(If x() nil (Set:x 1))"),
            // Loops and jumps.
            ("while a; b; end", "(While (If a() (Seq b() Again) nil))"),
            (
                "until a; 1; 2; end",
                "(While (If (Not a()) (Seq (Seq 1 2) Again) nil))",
            ),
            ("while a; end", "(While (If a() (Seq nil Again) nil))"),
            (
                "while a; next if b; break; end",
                "(While (If a() (Seq (Seq (If b() (Next nil) nil) Break) Again) nil))",
            ),
            ("f { next 1 }", "(f (Block (Next 1)))"),
            // `case`, and what the classes of values tell.
            ("a.nil?", "(IsA a() Nil)"),
            ("a.is_a?(A | B?)", "(IsA a() A B Nil)"),
            (
                "case a; in T, U then 1; in V; end",
                "(Seq (Set:%0 a()) (If (IsA %0 T U) 1 (If (IsA %0 V) nil (.in %0))))",
            ),
            (
                "x = 1; case x; in T | U then x; end",
                "(Seq (Set:x 1) (If (IsA x T U) x (.in x)))",
            ),
            (
                "x = 1; case x + 1; in T then 2; end",
                "(Seq (Set:x 1) (Seq (Set:%1 (.+ x 1)) (If (IsA %1 T) 2 (.in %1))))",
            ),
        ],
    )
}

#[test]
fn operators_and_assignments(rt: HostRuntime) -> Result<(), Fail> {
    core_forms_as_wanted(
        &rt,
        rt.alloc(),
        &[
            // Operators.
            ("a && b || c", "(Or (And a() b()) c())"),
            ("!a", "(Not a())"),
            ("a == b; a != b", "(Seq (.== a() b()) (Not (.== a() b())))"),
            (
                "a < 1; a <= 1; a > 1; a >= 1",
                "(Seq (.< a() 1) (Seq (.<= a() 1) (Seq (.> a() 1) (.>= a() 1))))",
            ),
            (
                "a << 1; a + 1; a - 1; a &+ 1",
                "(Seq (.<< a() 1) (Seq (.+ a() 1) (Seq (.- a() 1) (.&+ a() 1))))",
            ),
            (
                "a &- 1; a * 1; a // 1; a % 1; a &* 1",
                "(Seq (.&- a() 1) (Seq (.* a() 1) (Seq (.// a() 1) (Seq (.% a() 1) (.&* a() 1)))))",
            ),
            ("-a", "(.- a())"),
            // Indexes and attributes.
            ("a[1]; a[1]?", "(Seq (.[] a() 1) (.[]? a() 1))"),
            (
                "a[1] = 2; a[1, 2] = 3",
                "(Seq (.[]= a() 1 2) (.[]= a() 1 2 3))",
            ),
            ("a.x; a.x = 1", "(Seq (.x a()) (.x= a() 1))"),
            // Compound assignments.
            ("x += 1", "(Set:x (.+ x 1))"),
            (
                "x = 1; x -= 2; x *= 3",
                "(Seq (Set:x 1) (Seq (Set:x (.- x 2)) (Set:x (.* x 3))))",
            ),
            (
                "x //= 1; x %= 2",
                "(Seq (Set:x (.// x 1)) (Set:x (.% x 2)))",
            ),
            ("x ||= 1", "(Or x (Set:x 1))"),
            ("a.x += 1", "(Seq (Set:%0 a()) (.x= %0 (.+ (.x %0) 1)))"),
            (
                "a[b] -= c",
                "(Seq (Set:%0 a()) (Seq (Set:%1 b()) (.[]= %0 %1 (.- (.[] %0 %1) c()))))",
            ),
            (
                "a[1, b] += c",
                "(Seq (Set:%0 a()) (Seq (Set:%1 1) (Seq (Set:%2 b()) (.[]= %0 %1 %2 (.+ (.[] %0 %1 %2) c())))))",
            ),
            (
                "x = a; x.y %= x; x[0] *= x",
                "(Seq (Set:x a()) (Seq (Seq (Set:%1 x) (.y= %1 (.% (.y %1) x))) (Seq (Set:%2 x) (Seq (Set:%3 0) (.[]= %2 %3 (.* (.[] %2 %3) x))))))",
            ),
            // Texts with insertions.
            ("\"a#{1}b\"", "(.+ (.+ \"a\" (.to_s 1)) \"b\")"),
            (
                "\"#{a}#{b}\"",
                "(.+ (.+ (.+ (.+ \"\" (.to_s a())) \"\") (.to_s b())) \"\")",
            ),
        ],
    )
}

#[test]
fn calls_fibers_and_what_is_made(rt: HostRuntime) -> Result<(), Fail> {
    core_forms_as_wanted(
        &rt,
        rt.alloc(),
        &[
            // Calls, `puts` and `raise`.
            ("f; f(1); a.f", "(Seq f() (Seq (f 1) (.f a())))"),
            ("a.f(1) { |b| }", "(.f a() 1 (Block Parameter:b nil))"),
            ("puts 1; puts", "(Seq (Puts 1) (Puts \"\"))"),
            ("raise \"a\"", "(Raise \"a\")"),
            (
                "puts 1, 2; raise; a.puts 1",
                "(Seq (puts 1 2) (Seq raise() (.puts a() 1)))",
            ),
            // Fibers.
            ("Fiber.yield", "Pause"),
            (
                "spawn { 1 }; a.spawn { 2 }",
                "(Seq (Spawn (Block 1)) (Spawn a() (Block 2)))",
            ),
            (
                "select; when x = a.receive then x; when b.receive?; when c.send(1) then 2; end",
                "(Select (Receive a() (Seq (Set:x Received) x)) (ReceiveOrNil b() nil) (Send c() 1 2))",
            ),
            (
                "select; when x = x.receive?; when c.receive then 1; else; 2; 3; end",
                "(Select:else (ReceiveOrNil x (Seq (Set:x Received) nil)) (Receive c() 1) (Seq 2 3))",
            ),
            // What is made.
            ("A.new; A?.new(1)", "(Seq (New A) (New:? A 1))"),
            ("A::B(C | D).new(a, 1)", "(New (A::B (Union C D)) a() 1)"),
            (
                "Fiber::ExecutionContext::Isolated.new(\"a\") { 1 }",
                "(New Fiber::ExecutionContext::Isolated \"a\" (Block 1))",
            ),
            (
                "[]; [1, 2]; [1] of A | B",
                "(Seq Array (Seq (Array 1 2) (Array 1 (Union A B))))",
            ),
            (
                "{1 => 2}; {} of A => B?",
                "(Seq (Hash 1 2) (Hash (Union A) (Union B Nil)))",
            ),
        ],
    )
}
