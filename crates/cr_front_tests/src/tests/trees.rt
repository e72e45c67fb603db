//! Texts, and the trees that they spell.

use crate::tests::shapes_as_wanted;
use std::test::Fail;

#[test]
fn values_and_types(rt: HostRuntime) -> Result<(), Fail> {
    shapes_as_wanted(
        &rt,
        rt.alloc(),
        &[
            // Numbers, texts and words.
            ("", "{}"),
            ("\n;\n", "{}"),
            ("x\n", "{x}"),
            ("nil; true; false", "{nil true false}"),
            ("1; 1_000; -2; 3_i64; -4i64", "{1 1000 -2 3_i64 -4_i64}"),
            ("\"\"; \"a b\"", "{\"\" \"a b\"}"),
            ("\"a#{b}c\"", "{\"a#{b}c\"}"),
            ("\"#{a}#{b + 1}\"", "{\"#{a}#{(+ b 1)}\"}"),
            ("\"a#{\"b#{c}\"}d\"", "{\"a#{\"b#{c}\"}d\"}"),
            ("\"#{ {1 => 2} }\"", "{\"#{%{1=>2}}\"}"),
            ("\"#{f { |a| a }}\"", "{\"#{(f {|a| a})}\"}"),
            ("(a)", "{a}"),
            ("(\na\n)", "{a}"),
            ("(x = 1)", "{(= x 1)}"),
            // Arrays and hashes.
            ("[]", "{[]}"),
            ("[] of Int32", "{[of :Int32]}"),
            (
                "[1, \"a\"] of Int32 | String",
                "{[1 \"a\" of :Int32|String]}",
            ),
            ("[[1], [] of A]", "{[[1] [of :A]]}"),
            ("[\n1\n]", "{[1]}"),
            ("{}", "{%{}}"),
            ("{} of Int32 => A", "{%{of :Int32=>:A}}"),
            ("{ 1 => 2 }", "{%{1=>2}}"),
            ("{\n1 =>\n2}", "{%{1=>2}}"),
            (
                "{1 => a + b,\n2 => c} of A | B => C(D)",
                "{%{1=>(+ a b) 2=>c of :A|B=>:C(:D)}}",
            ),
            // Types.
            ("[] of T?", "{[of :T|Nil]}"),
            ("[] of A | B? | C", "{[of :A|B|Nil|C]}"),
            ("[] of A::B::C", "{[of :A::B::C]}"),
            ("[] of A(B, C | D(E)?)", "{[of :A(:B :C|D(:E)|Nil)]}"),
            ("[] of A(\nB,\nC\n)", "{[of :A(:B :C)]}"),
            ("x.is_a?(A)", "{(is_a? x :A)}"),
            ("x.is_a?(A::B | C?)", "{(is_a? x :A::B|C|Nil)}"),
            ("x.is_a?(\nA\n)", "{(is_a? x :A)}"),
            // Classes that are made, and contexts.
            ("A.new", "{(new A)}"),
            ("A.new()", "{(new A)}"),
            ("A.new(1, b).c", "{(.c (new A 1 b))}"),
            ("A?.new", "{(new A?)}"),
            ("A::B(C).new", "{(new A::B(:C))}"),
            ("A(B?).new(1)", "{(new A(:B|Nil) 1)}"),
            ("A(B)?.new", "{(new A(:B)?)}"),
            ("Fiber.new", "{(new Fiber)}"),
            ("Fiber.yield", "{Fiber.yield}"),
            ("Fiber.yield.x", "{(.x Fiber.yield)}"),
            (
                "Fiber::ExecutionContext::Isolated.new(\"a\") { }",
                "{(new Fiber::ExecutionContext::Isolated \"a\" {})}",
            ),
            (
                "Fiber::ExecutionContext::Isolated.new do b; c end",
                "{(new Fiber::ExecutionContext::Isolated {b c})}",
            ),
            (
                "Fiber::ExecutionContext::Isolated(A)?.new { }",
                "{(new Fiber::ExecutionContext::Isolated(:A)? {})}",
            ),
            (
                "Fiber::ExecutionContext::Parallel.new(\"a\", 2)",
                "{(new Fiber::ExecutionContext::Parallel \"a\" 2)}",
            ),
        ],
    )
}

#[test]
fn calls_and_blocks(rt: HostRuntime) -> Result<(), Fail> {
    shapes_as_wanted(
        &rt,
        rt.alloc(),
        &[
            // Names, links and elements.
            ("foo()", "{foo}"),
            ("f(1, x)", "{(f 1 x)}"),
            ("f(\n1,\n2\n)", "{(f 1 2)}"),
            ("a.b", "{(.b a)}"),
            ("a.b(1).c?.d!", "{(.d! (.c? (.b a 1)))}"),
            ("x[1]", "{([] x 1)}"),
            ("x[1, 2][3]", "{([] ([] x 1 2) 3)}"),
            ("x[\n1\n]", "{([] x 1)}"),
            ("x[1]?", "{([]? x 1)}"),
            ("x[1, 2]?.a", "{(.a ([]? x 1 2))}"),
            ("a.nil?", "{(nil? a)}"),
            ("a.is_a?(B).nil?", "{(nil? (is_a? a :B))}"),
            (
                "\"a\".b; 1.c; nil.d; [1].e",
                "{(.b \"a\") (.c 1) (.d nil) (.e [1])}",
            ),
            (
                "\"#{a}\".b; {1 => 2}.c; (d).e",
                "{(.b \"#{a}\") (.c %{1=>2}) (.e d)}",
            ),
            (
                "\"a\"[0]; f(x)[1]; A.new[2]",
                "{([] \"a\" 0) ([] (f x) 1) ([] (new A) 2)}",
            ),
            (
                "send(1); new; x.new 1; x.new -y",
                "{(send 1) new (.new x 1) (.new x (- y))}",
            ),
            ("a? 1; b!.c! 2", "{(a? 1) (.c! b! 2)}"),
            // Arguments without parentheses.
            ("puts", "{puts}"),
            ("x 1", "{(x 1)}"),
            ("x [1]", "{(x [1])}"),
            ("x -1", "{(x -1)}"),
            ("x -y", "{(x (- y))}"),
            ("x -y - z", "{(x (- (- y) z))}"),
            ("f 1,\n2", "{(f 1 2)}"),
            ("f (1), 2", "{(f 1 2)}"),
            ("f (1).a * 2", "{(f (* (.a 1) 2))}"),
            ("f !a, -b, nil", "{(f (! a) (- b) nil)}"),
            ("f A.new, \"#{b}\", true", "{(f (new A) \"#{b}\" true)}"),
            ("a.b 1, 2", "{(.b a 1 2)}"),
            ("a[0].b c", "{(.b ([] a 0) c)}"),
            ("puts 1 + 2", "{(puts (+ 1 2))}"),
            ("puts -1 + 2*3", "{(puts (+ -1 (* 2 3)))}"),
            ("puts [1] + [2]", "{(puts (+ [1] [2]))}"),
            (
                "f nil; f true; f false; f \"a\"; f 3_i64",
                "{(f nil) (f true) (f false) (f \"a\") (f 3_i64)}",
            ),
            // Blocks, and whose they are.
            ("foo { 1 }", "{(foo {1})}"),
            ("f { |a, b| }", "{(f {|a b|})}"),
            ("f {\n|a,\nb| a\nb\n}", "{(f {|a b| a b})}"),
            ("f(x, 1) { |a| b }", "{(f x 1 {|a| b})}"),
            ("a.each do |x|\nputs x\nend", "{(.each a {|x| (puts x)})}"),
            ("f { }.g(1) { }.h", "{(.h (.g (f {}) 1 {}))}"),
            ("foo x do end", "{(foo x {})}"),
            ("foo x { }", "{(foo (x {}))}"),
            ("foo(x do end)", "{(foo (x {}))}"),
            ("foo (x do end)", "{(foo (x {}))}"),
            ("foo [x do end]", "{(foo [(x {})])}"),
            ("foo a.b do |c| d end", "{(foo (.b a) {|c| d})}"),
            ("a.b 1, c do |d| e end", "{(.b a 1 c {|d| e})}"),
            (
                "foo [1], {1 => f(x do end)}",
                "{(foo [1] %{1=>(f (x {}))})}",
            ),
            ("foo 1, x { } do |y| end", "{(foo 1 (x {}) {|y|})}"),
            ("foo 1, x { y do end } do end", "{(foo 1 (x {(y {})}) {})}"),
            (
                "foo 1, if x do end; end do end",
                "{(foo 1 (if (x {}) {}) {})}",
            ),
            // Blocks of fibers.
            ("spawn { }", "{(spawn {})}"),
            ("spawn do\na\nb\nend", "{(spawn {a b})}"),
            ("a.b.spawn { c }", "{(spawn (.b a) {c})}"),
            ("a.spawn do end.b", "{(.b (spawn a {}))}"),
            ("foo 1, spawn { } do end", "{(foo 1 (spawn {}) {})}"),
        ],
    )
}

#[test]
fn operations_and_assignments(rt: HostRuntime) -> Result<(), Fail> {
    shapes_as_wanted(
        &rt,
        rt.alloc(),
        &[
            // Each operator, and how tightly it binds.
            ("a || b; a && b", "{(|| a b) (&& a b)}"),
            ("a == b; a != b", "{(== a b) (!= a b)}"),
            ("a < b; a <= b", "{(< a b) (<= a b)}"),
            ("a > b; a >= b", "{(> a b) (>= a b)}"),
            ("a << b; a + b; a - b", "{(<< a b) (+ a b) (- a b)}"),
            ("a &+ b; a &- b; a &* b", "{(&+ a b) (&- a b) (&* a b)}"),
            ("a * b; a // b; a % b", "{(* a b) (// a b) (% a b)}"),
            (
                "!a; -a; !!a; -(1); --1",
                "{(! a) (- a) (! (! a)) (- 1) (- -1)}",
            ),
            (
                "a || b && c == d << e + f * -g",
                "{(|| a (&& b (== c (<< d (+ e (* f (- g)))))))}",
            ),
            (
                "a * b + c << d < e && f || g",
                "{(|| (&& (< (<< (+ (* a b) c) d) e) f) g)}",
            ),
            ("a || b || c", "{(|| (|| a b) c)}"),
            ("a && b && c", "{(&& (&& a b) c)}"),
            ("a << b << c", "{(<< (<< a b) c)}"),
            ("1 - 2 - 3", "{(- (- 1 2) 3)}"),
            ("a + b &+ c &- d", "{(&- (&+ (+ a b) c) d)}"),
            ("a * b // c % d &* e", "{(&* (% (// (* a b) c) d) e)}"),
            ("a * (b + c)", "{(* a (+ b c))}"),
            ("(a == b) == c", "{(== (== a b) c)}"),
            ("!a == b", "{(== (! a) b)}"),
            ("-a * !b", "{(* (- a) (! b))}"),
            ("-a.b; !a[0]", "{(- (.b a)) (! ([] a 0))}"),
            ("-1.foo", "{(.foo -1)}"),
            ("a ||\n\nb", "{(|| a b)}"),
            (
                "a &&\nb ==\nc <<\nd +\ne *\nf",
                "{(&& a (== b (<< c (+ d (* e f)))))}",
            ),
            (
                "a.b + 1; a[0] * 2; c.send(1) == d",
                "{(+ (.b a) 1) (* ([] a 0) 2) (== (.send c 1) d)}",
            ),
            ("f(1) && g { } || !h", "{(|| (&& (f 1) (g {})) (! h))}"),
            ("a + if b then c end", "{(+ a (if b {c}))}"),
            ("if a; end + 1", "{(+ (if a {}) 1)}"),
            (
                "[!while a; end, case b; in C; end]",
                "{[(! (while a {})) (case b (in :C {}))]}",
            ),
            // A `-` that subtracts.
            ("x - 1", "{(- x 1)}"),
            ("x - \n1", "{(- x 1)}"),
            ("x-1; x-y", "{(- x 1) (- x y)}"),
            ("1 -1; nil -x", "{(- 1 1) (- nil x)}"),
            ("(a) -b", "{(- a b)}"),
            ("(a) -1", "{(- a 1)}"),
            ("a[0] -b", "{(- ([] a 0) b)}"),
            ("a.nil? -b", "{(- (nil? a) b)}"),
            ("f(a) -b", "{(- (f a) b)}"),
            ("a - -b", "{(- a (- b))}"),
            (
                "class A; def f; @x -self; self -@x; end; end",
                "{(class A {(def f {(- @x self) (- self @x)})})}",
            ),
            // Assignments.
            ("x = 1; x += 2; x -= 3", "{(= x 1) (+= x 2) (-= x 3)}"),
            ("x *= 1; x //= 2; x %= 3", "{(*= x 1) (//= x 2) (%= x 3)}"),
            ("x ||= 1", "{(||= x 1)}"),
            ("x? = 1; a.b? = 2", "{(= x? 1) (= (.b? a) 2)}"),
            ("a.b = 1", "{(= (.b a) 1)}"),
            ("(a).b = 1", "{(= (.b a) 1)}"),
            ("a.b.c = d 1", "{(= (.c (.b a)) (d 1))}"),
            ("a[0] += 1", "{(+= ([] a 0) 1)}"),
            (
                "a[0, 1] = b; a.b[0].c //= 2",
                "{(= ([] a 0 1) b) (//= (.c ([] (.b a) 0)) 2)}",
            ),
            ("x = y = 1", "{(= x (= y 1))}"),
            ("x = a || b", "{(= x (|| a b))}"),
            ("x = foo 1 do end", "{(= x (foo 1 {}))}"),
            ("x = if a then 1 else 2 end", "{(= x (if a {1} else {2}))}"),
            ("x = (y if z)", "{(= x (if z {y}))}"),
            (
                "class A; def f; @x ||= 1; @x.y = 2; @x[0] -= 3; end; end",
                "{(class A {(def f {(||= @x 1) (= (.y @x) 2) (-= ([] @x 0) 3)})})}",
            ),
        ],
    )
}

#[test]
fn compound_forms(rt: HostRuntime) -> Result<(), Fail> {
    shapes_as_wanted(
        &rt,
        rt.alloc(),
        &[
            // Branches and modifiers.
            ("if a; end", "{(if a {})}"),
            ("if a; else; end", "{(if a {} else {})}"),
            ("if c then 1 else 2 end", "{(if c {1} else {2})}"),
            (
                "if a\nb\nelsif c\nd\ne\nelsif f then g\nelse\nh\nend",
                "{(if a {b} (elsif c {d e}) (elsif f {g}) else {h})}",
            ),
            ("if x = f 1\nend", "{(if (= x (f 1)) {})}"),
            ("unless a\nb\nend", "{(unless a {b})}"),
            ("unless a then b else c end", "{(unless a {b} else {c})}"),
            ("x = 1 if c", "{(if c {(= x 1)})}"),
            ("puts 1 unless a 2", "{(unless (a 2) {(puts 1)})}"),
            ("if a; end if b", "{(if b {(if a {})})}"),
            ("if a; b; end.c", "{(.c (if a {b}))}"),
            (
                "x=[1,2]; x<<3 unless x.empty?",
                "{(= x [1 2]) (unless (.empty? x) {(<< x 3)})}",
            ),
            // Loops and jumps.
            ("while a\nend", "{(while a {})}"),
            (
                "while a\nb\nnext\nbreak if c\nend",
                "{(while a {b (next) (if c {(break)})})}",
            ),
            ("while break; end", "{(while (break) {})}"),
            ("while x do; end; end", "{(while (x {}) {})}"),
            ("until a && b\nc\nend", "{(until (&& a b) {c})}"),
            ("x { next 1 }", "{(x {(next 1)})}"),
            (
                "x { next if a; next unless b }",
                "{(x {(if a {(next)}) (unless b {(next)})})}",
            ),
            ("x { while a; break; end }", "{(x {(while a {(break)})})}"),
            ("def f; return if x; end", "{(def f {(if x {(return)})})}"),
            (
                "def f; return; return 1; return a || b; end",
                "{(def f {(return) (return 1) (return (|| a b))})}",
            ),
            (
                "def f; return (if a then b end) unless c; end",
                "{(def f {(unless c {(return (if a {b}))})})}",
            ),
            (
                "def f; return -1; return [1]; return !a + b; end",
                "{(def f {(return -1) (return [1]) (return (+ (! a) b))})}",
            ),
            ("def f; x = return 1; end", "{(def f {(= x (return 1))})}"),
            // `case`
            ("case x\nin A\nend", "{(case x (in :A {}))}"),
            (
                "case f 1\n\nin A | B?\n1\nin C, D::E then 2\n3\nend",
                "{(case (f 1) (in :A|B|Nil {1}) (in :C :D::E {2 3}))}",
            ),
            ("x = case y; in A; 1; end", "{(= x (case y (in :A {1})))}"),
            // `select`
            (
                "select\nwhen x = c.receive\nend",
                "{(select (when x (.receive c) {}))}",
            ),
            (
                "select\nwhen x = a.receive?\nb\nwhen c.receive? then d\nwhen e.f.receive\nwhen g.send(1)\nh\ni\nelse\nj\nend",
                "{(select (when x (.receive? a) {b}) (when (.receive? c) {d}) (when (.receive (.f e)) {}) (when (.send g 1) {h i}) else {j})}",
            ),
            (
                "x = select; when a[0].send(b + 1); else; end",
                "{(= x (select (when (.send ([] a 0) (+ b 1)) {}) else {}))}",
            ),
            (
                "select; when a.send(1).receive; end",
                "{(select (when (.receive (.send a 1)) {}))}",
            ),
            (
                "select; when a.receive.receive?; end",
                "{(select (when (.receive? (.receive a)) {}))}",
            ),
            (
                "select; when x = a.b(1)[0].receive; end",
                "{(select (when x (.receive ([] (.b a 1) 0)) {}))}",
            ),
            (
                "select; when a.receive.send(1); end",
                "{(select (when (.send (.receive a) 1) {}))}",
            ),
            (
                "select; when x do end.receive; end",
                "{(select (when (.receive (x {})) {}))}",
            ),
            (
                "while a; select; when b.receive; break; end; end",
                "{(while a {(select (when (.receive b) {(break)}))})}",
            ),
        ],
    )
}

#[test]
fn declarations(rt: HostRuntime) -> Result<(), Fail> {
    shapes_as_wanted(
        &rt,
        rt.alloc(),
        &[
            // Methods.
            ("def f; end", "{(def f {})}"),
            ("def f(); end", "{(def f {})}"),
            ("def f?(x)\nx\nend", "{(def f?(x) {x})}"),
            ("def f!\n1\n2\nend", "{(def f! {1 2})}"),
            (
                "def f(a, b : A | B, c : D(E)) : F?\na\nend",
                "{(def f(a b:A|B c:D(:E)):F|Nil {a})}",
            ),
            ("def f(\na,\nb\n)\nend", "{(def f(a b) {})}"),
            ("def f : A; end", "{(def f:A {})}"),
            ("def initialize(x); end", "{(def initialize(x) {})}"),
            ("def x=(v); end", "{(def x=(v) {})}"),
            ("def +(o); end; def -; end", "{(def +(o) {}) (def - {})}"),
            (
                "def *(o); end; def //(o); end",
                "{(def *(o) {}) (def //(o) {})}",
            ),
            (
                "def %(o); end; def <<(o); end",
                "{(def %(o) {}) (def <<(o) {})}",
            ),
            (
                "def <(o); end; def <=(o); end",
                "{(def <(o) {}) (def <=(o) {})}",
            ),
            (
                "def >(o); end; def >=(o); end",
                "{(def >(o) {}) (def >=(o) {})}",
            ),
            ("def ==(o : A | B); end", "{(def ==(o:A|B) {})}"),
            (
                "def []; end; def [](i); end",
                "{(def [] {}) (def [](i) {})}",
            ),
            ("def []=(i, v); end", "{(def []=(i v) {})}"),
            ("def []?(i); end", "{(def []?(i) {})}"),
            (
                "def f; yield; yield 1, 2; yield(3); yield(); end",
                "{(def f {(yield) (yield 1 2) (yield 3) (yield)})}",
            ),
            (
                "def f; yield[0]; yield [0]; end",
                "{(def f {([] (yield) 0) (yield [0])})}",
            ),
            (
                "def f; x = yield 1; a { yield }; end",
                "{(def f {(= x (yield 1)) (a {(yield)})})}",
            ),
            (
                "def f(x, x); super; super(); end",
                "{(def f(x x) {super (super)})}",
            ),
            (
                "def f; super 1, -a; super(2); super.x; super -y; end",
                "{(def f {(super 1 (- a)) (super 2) (.x super) (super (- y))})}",
            ),
            (
                "def f; yield + 1; yield - 1; super * 2; end",
                "{(def f {(+ (yield) 1) (- (yield) 1) (* super 2)})}",
            ),
            // Classes.
            ("class A; end", "{(class A {})}"),
            ("class A < B\nend", "{(class A < B {})}"),
            ("class A(T)\nend", "{(class A(T) {})}"),
            ("class A(\nK,\nV\n) < B; end", "{(class A(K V) < B {})}"),
            (
                "class A\n  def x=(v)\n    @x = v\n  end\nend",
                "{(class A {(def x=(v) {(= @x v)})})}",
            ),
            (
                "class A\n  include M\n  @x : B | C\n\n  @y : D(E)?\nend",
                "{(class A {(include M) (@x :B|C) (@y :D(:E)|Nil)})}",
            ),
            ("class A; getter a?; end", "{(class A {(getter a?)})}"),
            (
                "class A; getter a, b : T; end",
                "{(class A {(getter a b:T)})}",
            ),
            (
                "class A; property c : B | C, d, e : F?; end",
                "{(class A {(property c:B|C d e:F|Nil)})}",
            ),
            (
                "class A; def initialize(@x : T?); end; end",
                "{(class A {(def initialize(@x:T|Nil) {})})}",
            ),
            (
                "class A; def initialize(@a, b, @c : T); @d = b; end; end",
                "{(class A {(def initialize(@a b @c:T) {(= @d b)})})}",
            ),
            (
                "class A; def f; self.g @x, self; a { @y }; end; end",
                "{(class A {(def f {(.g self @x self) (a {@y})})})}",
            ),
            (
                "class A; def f; g self; g yield; g super; yield self; super @x; end; end",
                "{(class A {(def f {(g self) (g (yield)) (g super) (yield self) (super @x)})})}",
            ),
            (
                "class A; def f; @x + @y.z[0]; return @x; return self; end; end",
                "{(class A {(def f {(+ @x ([] (.z @y) 0)) (return @x) (return self)})})}",
            ),
            (
                "class A;\n;def f\n;\nend;\nend\n\n",
                "{(class A {(def f {})})}",
            ),
            // Modules, and items in a row.
            ("module M; end", "{(module M {})}"),
            (
                "module M\n  include N\n  def f : A\n    self\n  end\nend",
                "{(module M {(include N) (def f:A {self})})}",
            ),
            (
                "module M; def initialize(@x); end; end",
                "{(module M {(def initialize(@x) {})})}",
            ),
            (
                "class A; end; module B; end\ndef f; end; x\n\nclass C; end",
                "{(class A {}) (module B {}) (def f {}) x (class C {})}",
            ),
        ],
    )
}

/// A program with a module, a generic class, contexts, spawned blocks, loops and a `case`.
const WORKERS: &str = "module Scoring
  def score(x : Int32) : Int32
    x
  end
end
class Box(T)
  getter value : T
  def initialize(@value : T)
  end
end
class Worker
  include Scoring
  def initialize(@jobs : Channel(Int32), @results : Channel(Box(Int32 | Nil)))
  end
  def run
    while job = @jobs.receive?
      @results.send(Box(Int32 | Nil).new(score(job)))
    end
    @results.send(Box(Int32 | Nil).new(nil))
  end
end
jobs = Channel(Int32).new(16)
results = Channel(Box(Int32 | Nil)).new(16)
ctx = Fiber::ExecutionContext::Parallel.new(\"pool\", 4)
4.times do
  ctx.spawn do
    Worker.new(jobs, results).run
  end
end
spawn do
  i = 1
  while i <= 200
    jobs.send i
    i += 1
  end
  jobs.close
end
seen = {} of Int32 => Int32
left = 4
while left > 0
  v = results.receive.value
  case v
  in Int32
    seen[v] = v
  in Nil
    left -= 1
  end
end
total = 0
seen.each do |k, w|
  total += w
end
puts total
";

/// Its tree, an item a line.
const WORKERS_TREE: &str = concat!(
    "{(module Scoring {(def score(x:Int32):Int32 {x})}) ",
    "(class Box(T) {(getter value:T) (def initialize(@value:T) {})}) ",
    "(class Worker {(include Scoring) (def initialize(@jobs:Channel(:Int32) @results:Channel(:Box(:Int32|Nil))) {}) ",
    "(def run {(while (= job (.receive? @jobs)) {(.send @results (new Box(:Int32|Nil) (score job)))}) ",
    "(.send @results (new Box(:Int32|Nil) nil))})}) ",
    "(= jobs (new Channel(:Int32) 16)) ",
    "(= results (new Channel(:Box(:Int32|Nil)) 16)) ",
    "(= ctx (new Fiber::ExecutionContext::Parallel \"pool\" 4)) ",
    "(.times 4 {(spawn ctx {(.run (new Worker jobs results))})}) ",
    "(spawn {(= i 1) (while (<= i 200) {(.send jobs i) (+= i 1)}) (.close jobs)}) ",
    "(= seen %{of :Int32=>:Int32}) ",
    "(= left 4) ",
    "(while (> left 0) {(= v (.value (.receive results))) ",
    "(case v (in :Int32 {(= ([] seen v) v)}) (in :Nil {(-= left 1)}))}) ",
    "(= total 0) ",
    "(.each seen {|k w| (+= total w)}) ",
    "(puts total)}",
);

#[test]
fn a_whole_program_has_its_tree(rt: HostRuntime) -> Result<(), Fail> {
    shapes_as_wanted(&rt, rt.alloc(), &[(WORKERS, WORKERS_TREE)])
}
