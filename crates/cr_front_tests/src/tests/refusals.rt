//! Texts that are refused, each with the byte place of the token at which it is.

use crate::tests::{fault, repeated};
use cr_readers::ParseFault;
use std::alloc::Global;
use std::process::Abort;
use std::test::Fail;

fn refused_as_wanted(rt: &impl Abort, alloc: Global, rows: &[(&str, u32)]) -> Result<(), Fail> {
    for (text, place) in rows {
        let got = fault(rt, alloc, text)?;
        assert_eq!(rt; got, Some(ParseFault::Unexpected(*place)), "at {text}");
    }
    Ok(())
}

#[test]
fn operands_that_are_refused(rt: HostRuntime) -> Result<(), Fail> {
    refused_as_wanted(
        &rt,
        rt.alloc(),
        &[
            // What is no target, at what assigns it.
            ("(a) = 1", 4),
            ("a.b() = 1", 6),
            ("f(1) = 2", 5),
            ("a[0]? = 1", 6),
            ("A.new = 1", 6),
            ("a + b = 1", 6),
            ("a || b = 1", 7),
            ("a.x ||= 1", 4),
            ("a[0] ||= 1", 5),
            ("a b = 1", 4),
            ("f(x = 1)", 4),
            // A sign behind a name, where no command can stand or what follows begins no argument.
            ("f(x -y)", 5),
            ("f(x -1)", 4),
            ("a[b -c]", 5),
            ("a + b -c", 7),
            ("A.new -y", 7),
            ("Fiber.yield -x", 13),
            ("x -\n", 3),
            ("a[0]? -1", 6),
            ("def f; yield-1; end", 12),
            // A command as an argument, in parentheses of arguments, and as an operand.
            ("puts foo 1", 9),
            ("A.new 5", 6),
            ("f(g 1)", 4),
            ("1 + foo 2", 8),
            ("!foo 1", 5),
            ("a.b c d", 6),
            ("def f; return g 1; end", 16),
            // What follows the block of a command, a `do` that no command takes, and a line feed before parameters.
            ("foo 1 do end.bar", 12),
            ("foo 1 do end + 1", 13),
            ("def f; yield x do; end; end", 15),
            ("def f; super x do; end; end", 15),
            ("spawn do |x| end", 9),
            ("puts c.spawn do end", 13),
            ("puts Fiber::ExecutionContext::Isolated.new do end", 43),
            ("puts 1, {1 => y do end}", 16),
            ("puts \"#{y do end}\"", 10),
            ("x do\n|a| end", 5),
            // Comparisons of comparisons.
            ("a == b == c", 7),
            ("a < b < c", 6),
            // Braces of which no hash literal and no block comes.
            ("{ 1 }", 4),
            ("foo { 1 => 2 }", 8),
            ("foo(1) { 1 => 2 }", 11),
            ("[1] { 1 }", 4),
            // Blocks of `new`, and their want.
            ("Fiber::ExecutionContext::Isolated.new(\"a\")", 42),
            ("Fiber::ExecutionContext::Isolated.new", 37),
            ("Fiber::ExecutionContext::Isolated.new { |x| }", 40),
            ("A.new { }", 6),
            ("A.new do end", 6),
            // Types that are asked for.
            ("x.is_a?(A(B))", 9),
            ("case x; in A(B); end", 12),
            ("x.is_a? (A)", 8),
            ("x.nil?(1)", 6),
            ("[] of (A)", 6),
            ("x.is_a?(b)", 8),
            ("[] of a", 6),
            ("{1 => 2} of A", 13),
            // What follows a dot or a class.
            ("a.if", 2),
            ("a.yield", 2),
            ("A.foo", 2),
            ("A", 1),
            ("A.yield", 2),
            ("Fiber::A.yield", 9),
            ("Fiber(A).yield", 9),
            ("A.is_a?(B)", 2),
        ],
    )
}

#[test]
fn statements_and_declarations_that_are_refused(rt: HostRuntime) -> Result<(), Fail> {
    refused_as_wanted(
        &rt,
        rt.alloc(),
        &[
            // Words that have no place at the top level.
            ("break", 0),
            ("next", 0),
            ("return", 0),
            ("self", 0),
            ("@x", 0),
            ("yield", 0),
            ("super", 0),
            ("then", 0),
            ("do", 0),
            ("of", 0),
            ("in A", 0),
            ("when", 0),
            ("else", 0),
            ("elsif", 0),
            ("end", 0),
            // Words in a scope that is not theirs.
            ("while true; spawn do break end; end", 21),
            ("spawn { break }", 8),
            ("def f; break; end", 7),
            ("def f; x do return end; end", 12),
            ("def f; self; end", 7),
            ("def f; @x; end", 7),
            // Branches, loops and modifiers.
            ("unless a; elsif b; end", 10),
            ("if a; else; elsif b; end", 12),
            ("while a then; end", 8),
            ("if x y end", 7),
            ("x if c if d", 7),
            ("puts if x then 1 end", 10),
            ("case x; in A; else; end", 14),
            // Clauses of `select` and `case`.
            ("select; when c.receive(); end", 24),
            ("select; when x = c.send(1); end", 26),
            ("select; when c.send(1, 2); end", 25),
            ("select; when c.receive 1; end", 23),
            ("select; when x; end", 14),
            ("select; end", 8),
            ("select; else; end", 8),
            ("case x; end", 8),
            ("select; when c.x; end", 16),
            ("select; when c.receive + 1; end", 23),
            // `initialize`, and instance variables as parameters.
            ("def initialize : T; end", 15),
            ("def initialize(@x); end", 15),
            ("class A; def f(@x); end; end", 15),
            // Members that their class or module does not have.
            ("module M; @x : T; end", 10),
            ("module M; getter x; end", 10),
            ("class A; puts 1; end", 9),
            ("class A; class B; end; end", 9),
            ("class A; @x; end", 11),
            ("class A; getter; end", 15),
            ("if a; def f; end; end", 6),
            ("class a; end", 6),
            ("module m; end", 7),
            ("class A; include m; end", 17),
            ("include M", 0),
            ("getter x", 0),
            // What is no name of a method.
            ("def [ ]; end", 6),
            ("def [] =(x); end", 7),
            ("def []? =(x); end", 8),
            ("def x =(v); end", 6),
            ("def x?=(v); end", 5),
            ("def f (x); end", 6),
            ("def !; end", 4),
        ],
    )
}

#[test]
fn texts_that_are_refused(rt: HostRuntime) -> Result<(), Fail> {
    refused_as_wanted(
        &rt,
        rt.alloc(),
        &[
            // Line feeds behind which nothing goes on.
            ("x =\n1", 3),
            ("!\nx", 1),
            ("a.\nb", 2),
            ("a\n.b", 2),
            ("A::\nB.new", 3),
            ("def f :\nT; end", 7),
            ("class A <\nB; end", 9),
            ("[] of A |\nB", 9),
            ("{1 => 2\n}", 7),
            ("\"#{\nx}\"", 3),
            ("def [\n]; end", 5),
            // Lists with a gap, and texts that end early or late.
            ("puts )", 5),
            ("1 +", 3),
            ("f(", 2),
            ("f(1,)", 4),
            ("[1,]", 3),
            ("a[]", 2),
            ("f(1 2)", 4),
            ("x | y", 2),
            ("puts 1 if", 9),
            ("if a; end; end", 11),
            // Forms of Crystal that are left out.
            ("{1, 2}", 2),
            ("{a: 1}", 2),
            ("1..2", 2),
            ("-> { }", 1),
            ("A = 1", 2),
            ("x : A", 2),
            ("class A; def self.x; end; end", 13),
            ("f(x: 1)", 3),
            ("def f(x = 1); end", 8),
            ("def f(*x); end", 6),
            ("class A; property n : A = 0; end", 24),
            ("module M(T); end", 8),
            ("class A < B(T); end", 11),
            ("a ? b : c", 2),
            ("a <=> b", 4),
            ("a ** b", 3),
            ("a &&= b", 4),
            ("while a; break 1; end", 15),
            ("A::b.new", 3),
            ("def; end", 3),
            ("def f(1); end", 6),
            ("f { |1| }", 5),
            // Words that are reserved.
            ("abstract", 0),
            ("alias", 0),
            ("annotation", 0),
            ("as", 0),
            ("asm", 0),
            ("begin", 0),
            ("ensure", 0),
            ("enum", 0),
            ("extend", 0),
            ("fun", 0),
            ("lib", 0),
            ("loop", 0),
            ("macro", 0),
            ("out", 0),
            ("private", 0),
            ("protected", 0),
            ("require", 0),
            ("rescue", 0),
            ("struct", 0),
            ("typeof", 0),
            ("union", 0),
            ("with", 0),
        ],
    )
}

#[test]
fn nesting_and_nodes_are_limited(rt: HostRuntime) -> Result<(), Fail> {
    for (before, count, text, behind, want) in [
        ("", 200, "[", "", Some(ParseFault::Unexpected(200))),
        ("", 201, "[", "", Some(ParseFault::TooDeep(200))),
        ("", 199, "!", "x", None),
        ("", 200, "!", "x", Some(ParseFault::TooDeep(200))),
        ("", 199, "!", "A.new", Some(ParseFault::TooDeep(201))),
        ("a", 199, ".b", "", None),
        ("a", 200, ".b", "", Some(ParseFault::TooDeep(400))),
        ("1", 199, "+1", "", None),
        ("1", 200, "+1", "", Some(ParseFault::TooDeep(399))),
        ("1", 199_999, ";1", "", None),
        (
            "1",
            200_000,
            ";1",
            "",
            Some(ParseFault::TooManyNodes(400_000)),
        ),
    ] {
        let source = repeated(rt.alloc(), before, count, text, behind)?;
        let got = fault(&rt, rt.alloc(), source.as_str())?;
        assert_eq!(rt; got, want, "at {before}, {count} times {text}, {behind}");
    }
    Ok(())
}
