//! The forms of core nodes. A form says what a node is and names no part; which parts it has stands in one table of the
//! specification, a line a form.

use cr_base::NameId;

/// A scope of a core tree: its place in the tree's list of scopes.
#[derive(Clone, Copy, Debug, PartialEq, Eq, Hash, PartialOrd, Ord)]
pub struct ScopeId(pub u32);

/// A text's place in the tree's table of texts.
#[derive(Clone, Copy, Debug, PartialEq, Eq, Hash, PartialOrd, Ord)]
pub struct TextId(pub u32);

/// A local as a node names it.
#[derive(Clone, Copy, Debug, PartialEq, Eq)]
pub struct Local {
    /// The scope that it belongs to.
    pub scope: ScopeId,
    /// Its place in the slots of that scope.
    pub slot: u32,
    /// How many scopes outwards that scope lies from the one in which the node stands.
    pub up: u32,
}

/// What a core node is.
#[derive(Clone, Copy, Debug, PartialEq, Eq)]
pub enum Form {
    // Terms: literals, variables and `self`.
    Nil,
    True,
    False,
    Int32(i32),
    Int64(i64),
    Text(TextId),
    Local(Local),
    Set(Local),
    /// An instance variable, by its name with the `@`.
    Field(NameId),
    SetField(NameId),
    KeywordSelf,

    // Terms: control.
    /// Both, one after the other.
    Seq,
    If,
    And,
    Or,
    Not,
    /// Whether a value's class is at or below one that an atom names.
    IsA,
    /// A loop. Its one part is what a turn of it begins with: `If(condition, Seq(body, Again), nil)`.
    While,
    /// The end of a turn, which begins the next one.
    Again,
    Return,
    Next,
    Break,

    // Terms: calls, and what the language knows by a word.
    /// A call of the method of this name, with a receiver or without, and with a block or without.
    Call {
        name: NameId,
        receiver: bool,
        block: bool,
    },
    /// A call of the method that stands behind the running one. A bare `super` has the parameters as arguments.
    Super,
    /// A new object, channel or context. The question mark is one that stood behind the atom. The block is that of an
    /// isolated context.
    New {
        question: bool,
        block: bool,
    },
    Yield,
    /// A new fiber, in the context that is given or in the present one.
    Spawn {
        context: bool,
    },
    Raise,
    Puts,
    /// `Fiber.yield`
    Pause,
    /// An array of these elements, with its type written or not.
    Array {
        of: bool,
    },
    /// A hash of these keys and values, with their types written or not.
    Hash {
        of: bool,
    },
    /// A choice among clauses, with an `else` or without.
    Select {
        otherwise: bool,
    },
    /// The value that the clause around it received.
    Received,

    // Clauses of a choice.
    Send,
    Receive,
    ReceiveOrNil,

    // Types.
    /// A class with its written arguments, by its path in one name, as `Fiber::ExecutionContext::Parallel`.
    Atom(NameId),
    /// A written type.
    Union,

    // What opens a scope.
    /// The top level, with all that is declared in it.
    Program(ScopeId),
    /// A method. `written` tells that the text has a `def` for it, and no `getter` or `property` makes it.
    Def {
        name: NameId,
        scope: ScopeId,
        result: bool,
        written: bool,
    },
    /// The block of a call, or one that a fiber begins with.
    Block(ScopeId),
    /// A parameter, by its slot in the scope in which it stands, with its type written or not.
    Parameter {
        slot: u32,
        restricted: bool,
    },

    // Declarations.
    Class {
        name: NameId,
        superclass: Option<NameId>,
    },
    /// A type parameter of a class.
    TypeParameter(NameId),
    Module(NameId),
    Include(NameId),
    /// `@x : T`, by the name with the `@`.
    Declaration(NameId),
}
