use crate::operator::{Assignment, Binary, Unary};
use cr_syntax::TokenText;
use sqlite_items::{Boxed, Items};

/// A construct of the source. `at` is the byte place that a refusal names: of a call, an operator or `new` its name's, of
/// an index its `[`'s, of `nil?`, `is_a?` and `spawn` behind a receiver the word's, of any other construct its first
/// token's. Lists, blocks and pairs have none. Parentheses, the modifier `if`, `then`, braces against `do` and an
/// empty argument list leave no trace.
#[derive(Drop)]
pub enum Tree {
    // Lists and parts, which are no nodes.
    /// `a; b`: the statements of a program or a body.
    Statements {
        list: Items<Tree>,
    },
    /// `A | B`
    Union {
        atoms: Items<Tree>,
    },
    /// `{ |a, b| s }` or `do |a, b| s end`, behind a call.
    Block {
        parameters: Items<Tree>,
        body: Items<Tree>,
    },
    /// `k => v` of a hash literal, or `K => V` of its types.
    Pair {
        key: Boxed<Tree>,
        value: Boxed<Tree>,
    },
    /// `elsif c` and its statements.
    Branch {
        at: u32,
        condition: Boxed<Tree>,
        body: Items<Tree>,
    },
    /// `in A, B` and its statements.
    In {
        at: u32,
        types: Items<Tree>,
        body: Items<Tree>,
    },
    /// `when x = c.receive` or `when c.send(v)`, and its statements. The operation is a call.
    When {
        at: u32,
        target: Option<Boxed<Tree>>,
        operation: Boxed<Tree>,
        body: Items<Tree>,
    },

    // Types and parameters.
    /// `A::B(C, D)`. `T?` in a type is the two atoms `T` and `Nil`.
    Atom {
        at: u32,
        path: Items<TokenText>,
        arguments: Items<Tree>,
    },
    /// `x : T` or `@x : T` of a method, or a name between the `|` of a block.
    Parameter {
        at: u32,
        instance: bool,
        name: TokenText,
        restriction: Option<Boxed<Tree>>,
    },

    // Expressions.
    Int32 {
        at: u32,
        value: i32,
    },
    Int64 {
        at: u32,
        value: i64,
    },
    /// A text without insertion.
    Text {
        at: u32,
        text: TokenText,
    },
    /// `"a#{b}c"`: one part more than there are insertions.
    Insertions {
        at: u32,
        parts: Items<TokenText>,
        inserted: Items<Tree>,
    },
    Nil {
        at: u32,
    },
    True {
        at: u32,
    },
    False {
        at: u32,
    },
    /// `self`
    KeywordSelf {
        at: u32,
    },
    /// `@x`, with its name without the `@`.
    InstanceVariable {
        at: u32,
        name: TokenText,
    },
    /// `[a, b] of T`
    Array {
        at: u32,
        elements: Items<Tree>,
        element: Option<Boxed<Tree>>,
    },
    /// `{k => v} of K => V`: entries and types are pairs.
    Hash {
        at: u32,
        entries: Items<Tree>,
        entry: Option<Boxed<Tree>>,
    },
    /// `r.f(a) { .. }`. Without receiver, arguments and block it is a name.
    Call {
        at: u32,
        receiver: Option<Boxed<Tree>>,
        name: TokenText,
        arguments: Items<Tree>,
        block: Option<Boxed<Tree>>,
    },
    /// `r[a, b]`, or `r[a, b]?`
    Index {
        at: u32,
        receiver: Boxed<Tree>,
        arguments: Items<Tree>,
        question: bool,
    },
    /// `a + b`
    Binary {
        at: u32,
        operator: Binary,
        left: Boxed<Tree>,
        right: Boxed<Tree>,
    },
    /// `!a` or `-a`
    Unary {
        at: u32,
        operator: Unary,
        operand: Boxed<Tree>,
    },
    /// `a.nil?`
    IsNil {
        at: u32,
        value: Boxed<Tree>,
    },
    /// `a.is_a?(T)`
    IsA {
        at: u32,
        value: Boxed<Tree>,
        of: Boxed<Tree>,
    },
    /// `A(B).new(a) { .. }`: the class is an atom, and `question` tells that a `?` follows it.
    New {
        at: u32,
        class: Boxed<Tree>,
        question: bool,
        arguments: Items<Tree>,
        block: Option<Boxed<Tree>>,
    },
    /// `Fiber.yield`
    Pause {
        at: u32,
    },
    /// `yield a`
    Yield {
        at: u32,
        arguments: Items<Tree>,
    },
    /// `super a` or `super()`
    Super {
        at: u32,
        arguments: Items<Tree>,
    },
    /// `super` alone, which passes the parameters on.
    BareSuper {
        at: u32,
    },
    /// `spawn { .. }` or `c.spawn { .. }`
    Spawn {
        at: u32,
        context: Option<Boxed<Tree>>,
        body: Items<Tree>,
    },
    /// `if` or `unless`: `others` are the branches of `elsif`.
    If {
        at: u32,
        unless: bool,
        condition: Boxed<Tree>,
        body: Items<Tree>,
        others: Items<Tree>,
        otherwise: Option<Items<Tree>>,
    },
    /// `while` or `until`
    While {
        at: u32,
        until: bool,
        condition: Boxed<Tree>,
        body: Items<Tree>,
    },
    /// `case`, with its clauses `in`.
    Case {
        at: u32,
        value: Boxed<Tree>,
        clauses: Items<Tree>,
    },
    /// `select`, with its clauses `when`.
    Select {
        at: u32,
        clauses: Items<Tree>,
        otherwise: Option<Items<Tree>>,
    },

    // Statements.
    /// `x = v`, `x += v` and their kin. The operator's own place is `operator_at`.
    Assign {
        at: u32,
        target: Boxed<Tree>,
        operator: Assignment,
        operator_at: u32,
        value: Boxed<Tree>,
    },
    Return {
        at: u32,
        value: Option<Boxed<Tree>>,
    },
    Next {
        at: u32,
        value: Option<Boxed<Tree>>,
    },
    Break {
        at: u32,
    },

    // Declarations.
    /// `class A(T) < B`
    Class {
        at: u32,
        name: TokenText,
        parameters: Items<TokenText>,
        superclass: Option<TokenText>,
        members: Items<Tree>,
    },
    Module {
        at: u32,
        name: TokenText,
        members: Items<Tree>,
    },
    Include {
        at: u32,
        name: TokenText,
    },
    /// `@x : T`
    Declaration {
        at: u32,
        name: TokenText,
        of: Boxed<Tree>,
    },
    /// `getter a, b`, or `property a, b`
    Accessors {
        at: u32,
        property: bool,
        accessors: Items<Tree>,
    },
    /// `a : T` of an accessor's line.
    Accessor {
        at: u32,
        name: TokenText,
        of: Option<Boxed<Tree>>,
    },
    /// `def`. The name is written as in a call: `+`, `[]=`, `x=`.
    Def {
        at: u32,
        name: TokenText,
        parameters: Items<Tree>,
        result: Option<Boxed<Tree>>,
        body: Items<Tree>,
    },
}
