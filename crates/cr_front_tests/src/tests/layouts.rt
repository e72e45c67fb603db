//! Texts, and how the programs that they spell are laid out. What is laid out is laid out again as it stands.

use crate::tests::{answer, laid_out, laid_out_as_wanted, repeated};
use std::test::Fail;

#[test]
fn sources_are_laid_out(rt: HostRuntime) -> Result<(), Fail> {
    laid_out_as_wanted(
        &rt,
        rt.alloc(),
        &[
            // Programs and lines.
            ("", ""),
            ("# nothing\n\n  # but remarks\n;", ""),
            ("puts 1+2 if true", "if true\n  puts(1 + 2)\nend\n"),
            ("a # one\n\n\nb;; c\r\n", "a\nb\nc\n"),
            // Literals.
            (
                "f nil, true, false, 1_000, -7_i32, 8i64, -0_i64",
                "f(nil, true, false, 1000, -7, 8_i64, 0_i64)\n",
            ),
            (
                "f \"\\\\ \\\" \\n \\t \\r \\#{ \\#\", \"# é\n\"",
                "f(\"\\\\ \\\" \\n \\t \\r \\#{ #\", \"# é\\n\")\n",
            ),
            (
                "\"a#{ b+1 }#{\"#{c}}\"}\\#{\"",
                "\"a#{b + 1}#{\"#{c}}\"}\\#{\"\n",
            ),
            (
                "[1,\n2]; [] of A?; [a] of A|B",
                "[1, 2]\n[] of A | Nil\n[a] of A | B\n",
            ),
            (
                "{1=>2, \"a\" => b}; {} of A=>B?",
                "{1 => 2, \"a\" => b}\n{} of A => B | Nil\n",
            ),
            // Calls, names and what follows them.
            (
                "f(); f 1, a; f.g -1; f.g? 1; f [1]",
                "f\nf(1, a)\nf.g(-1)\nf.g?(1)\nf([1])\n",
            ),
            (
                "a[0]; a[0,b]?; a.nil?; a.is_a?(A|B?); a.b.c!",
                "a[0]\na[0, b]?\na.nil?\na.is_a?(A | B | Nil)\na.b.c!\n",
            ),
            (
                "A.new; A::B(C,D?).new(1); A?.new; A(B)?.new(); Fiber.yield",
                "A.new\nA::B(C, D | Nil).new(1)\nA?.new\nA(B)?.new\nFiber.yield\n",
            ),
            // Operators: an operand that is an operation stands in parentheses.
            (
                "a*b+c; a+b*c; a+b+c; (a+b)-(c)",
                "(a * b) + c\na + (b * c)\n(a + b) + c\n(a + b) - c\n",
            ),
            (
                "a||b&&c; a==b; a!=b; a<b; a<=b; a>b; a>=b; a<<b",
                "a || (b && c)\na == b\na != b\na < b\na <= b\na > b\na >= b\na << b\n",
            ),
            (
                "a-b; a&+b; a&-b; a//b; a%b; a&*b",
                "a - b\na &+ b\na &- b\na // b\na % b\na &* b\n",
            ),
            (
                "!a==b; !!a; !a.b; --a; -a.b; (!a).b; (-a)[0]",
                "(!a) == b\n!(!a)\n!a.b\n-(-a)\n-a.b\n(!a).b\n(-a)[0]\n",
            ),
            // What follows a `-` stands in parentheses where a digit comes first.
            (
                "-(1); -(1.foo); --1; -(-1); - 1; -1.foo; -(1 + 2); -(1_i64[0])",
                "-(1)\n-(1.foo)\n--1\n--1\n-(1)\n-1.foo\n-(1 + 2)\n-(1_i64[0])\n",
            ),
            // Assignments and jumps: an operand and an argument in parentheses, a value as it is.
            (
                "a=1; a+=1; a-=1; a*=1; a//=1; a%=1; a||=1; a.b=1; a.b+=1; a[0]=1; a[0]-=1",
                "a = 1\na += 1\na -= 1\na *= 1\na //= 1\na %= 1\na ||= 1\na.b = 1\na.b += 1\na[0] = 1\na[0] -= 1\n",
            ),
            (
                "a = b = c; (a = 1).b; (a = 1) + (b = 2); !(a = 1)",
                "a = b = c\n(a = 1).b\n(a = 1) + (b = 2)\n!(a = 1)\n",
            ),
            (
                "f (a = 1), (b+1); [(a = 1)]; {(a = 1) => (b = 2)}; \"#{(a = 1)}\"; a[(b = 1)]",
                "f((a = 1), b + 1)\n[(a = 1)]\n{(a = 1) => (b = 2)}\n\"#{(a = 1)}\"\na[(b = 1)]\n",
            ),
            (
                "while a; f (next), (break); x = break; (next).b; end",
                "while a\n  f((next), (break))\n  x = break\n  (next).b\nend\n",
            ),
            // Compound forms, as statements and within a statement.
            (
                "if a then b elsif c; d; elsif e then else f end",
                "if a\n  b\nelsif c\n  d\nelsif e\nelse\n  f\nend\n",
            ),
            (
                "unless a; else end; a = 1 unless b",
                "unless a\nelse\nend\nunless b\n  a = 1\nend\n",
            ),
            (
                "while a; until b; break if c; end; end",
                "while a\n  until b\n    if c\n      break\n    end\n  end\nend\n",
            ),
            (
                "case a; in A then 1; in B, C::D; 2; end",
                "case a\nin A\n  1\nin B, C::D\n  2\nend\n",
            ),
            (
                "select; when x = c.receive then x; when c.receive?; when d.send(1); else e; end",
                "select\nwhen x = c.receive\n  x\nwhen c.receive?\nwhen d.send(1)\nelse\n  e\nend\n",
            ),
            (
                "while a; x = if b then 1 else [f(if c then 2 end)] end; end",
                "while a\n  x = if b\n    1\n  else\n    [f(if c\n      2\n    end)]\n  end\nend\n",
            ),
            (
                "(if a then 1 end).b; 1 + while a; end; !(case a; in A then 1; end); (select; when c.receive then 1; end)[0]",
                "(if a\n  1\nend).b\n1 + (while a\nend)\n!(case a\nin A\n  1\nend)\n(select\nwhen c.receive\n  1\nend)[0]\n",
            ),
            // Blocks, and what is spawned.
            (
                "a.b(1) { |c,d| c }; a.b {}; f 1 do g end; f { 1 }.h",
                "a.b(1) do |c, d|\n  c\nend\na.b do\nend\nf(1) do\n  g\nend\nf do\n  1\nend.h\n",
            ),
            (
                "spawn { a }; c.spawn do b end; Fiber::ExecutionContext::Isolated.new(\"x\") { d }",
                "spawn do\n  a\nend\nc.spawn do\n  b\nend\nFiber::ExecutionContext::Isolated.new(\"x\") do\n  d\nend\n",
            ),
            (
                "a.b { next 1; next (if c then 1 end); next (d = 1); next while e; end }",
                "a.b do\n  next 1\n  next (if c\n    1\n  end)\n  next (d = 1)\n  next while e\n  end\nend\n",
            ),
            // Declarations.
            (
                "def f; yield; yield 1, 2; return; return -1; return (unless a then 1 end); end",
                "def f\n  yield\n  yield(1, 2)\n  return\n  return -1\n  return (unless a\n    1\n  end)\nend\n",
            ),
            (
                "def f(a, b : A|B?) : C(D)?; return (return); a end",
                "def f(a, b : A | B | Nil) : C(D) | Nil\n  return (return)\n  a\nend\n",
            ),
            (
                "class A(T,U) < B; @x : T?; getter a, b : T; property c; include M; end; class C; end",
                "class A(T, U) < B\n  @x : T | Nil\n  getter a, b : T\n  property c\n  include M\nend\nclass C\nend\n",
            ),
            (
                "class A; def initialize(@x : A, y); super; super(); super y; @z=self; end; end",
                "class A\n  def initialize(@x : A, y)\n    super\n    super()\n    super(y)\n    @z = self\n  end\nend\n",
            ),
            (
                "module M; def x=(v); v; end; def +(o); end; def []=(i,v); end; def []?(i); end; def a?() : A; end; end",
                "module M\n  def x=(v)\n    v\n  end\n  def +(o)\n  end\n  def []=(i, v)\n  end\n  def []?(i)\n  end\n  def a? : A\n  end\nend\n",
            ),
        ],
    )
}

/// As deep as a program may nest, with a list or a clause between a construct and the next.
#[test]
fn deep_programs_are_laid_out(rt: HostRuntime) -> Result<(), Fail> {
    for (before, behind) in [("if a\n", "\nend"), ("a.b do\n", "\nend"), ("{1 => ", "}")] {
        let opened = repeated(rt.alloc(), "", 190, before, "1")?;
        let source = repeated(rt.alloc(), opened.as_str(), 190, behind, "")?;
        let bytes = laid_out(rt.alloc(), answer(&rt, rt.alloc(), source.as_str())?)?;
        assert!(rt; bytes.len() > source.len(), "at {before}");
    }
    Ok(())
}
