//! The built-in methods as one variant each, by class. Integers of both widths have the same operations, and `==` of objects,
//! channels and contexts is one.
/// What two integers of one width give.
#[derive(Clone, Copy, Debug, PartialEq, Eq)]
pub enum Reckoning {
    /// `+`
    Add,
    /// `-`
    Subtract,
    /// `*`
    Multiply,
    /// `//`
    Divide,
    /// `%`
    Remainder,
    /// `&+`
    WrapAdd,
    /// `&-`
    WrapSubtract,
    /// `&*`
    WrapMultiply,
}

/// A comparison of two integers of one width, or of two texts.
#[derive(Clone, Copy, Debug, PartialEq, Eq)]
pub enum Comparison {
    /// `<`
    Less,
    /// `<=`
    LessEqual,
    /// `>`
    Greater,
    /// `>=`
    GreaterEqual,
}

/// What nil and a Bool do.
#[derive(Clone, Copy, Debug, PartialEq, Eq)]
pub enum PlainOperation {
    /// `==`
    Equal,
    /// `to_s`
    ToText,
}

/// What an integer does.
#[derive(Clone, Copy, Debug, PartialEq, Eq)]
pub enum NumberOperation {
    /// With an integer of the same width.
    Reckon(Reckoning),
    /// With an integer of the same width.
    Compare(Comparison),
    /// `-` without an argument.
    Negate,
    /// `==`
    Equal,
    /// `to_i`
    ToInt32,
    /// `to_i64`
    ToInt64,
    /// `to_s`
    ToText,
}

/// What a text does.
#[derive(Clone, Copy, Debug, PartialEq, Eq)]
pub enum TextOperation {
    /// `+`
    Join,
    /// `*`
    Repeat,
    /// `==`
    Equal,
    /// With a text.
    Compare(Comparison),
    /// `size`
    Size,
    /// `bytesize`
    ByteSize,
    /// `empty?`
    IsEmpty,
    /// `starts_with?`
    StartsWith,
    /// `to_s`
    ToText,
}

/// A class whose values are references and have `==`.
#[derive(Clone, Copy, Debug, PartialEq, Eq)]
pub enum ReferenceClass {
    Object,
    Channel,
    /// `Fiber::ExecutionContext::Concurrent`
    Concurrent,
    /// `Fiber::ExecutionContext::Parallel`
    Parallel,
    /// `Fiber::ExecutionContext::Isolated`
    Isolated,
}

/// An operation that reads no cell.
#[derive(Clone, Copy, Debug, PartialEq, Eq)]
pub enum ScalarOperation {
    /// `==` of a reference.
    Same(ReferenceClass),
    /// Of nil.
    Nil(PlainOperation),
    /// Of a Bool.
    Bool(PlainOperation),
    /// Of an Int32.
    Int32(NumberOperation),
    /// Of an Int64.
    Int64(NumberOperation),
    /// Of a String.
    String(TextOperation),
}

/// What an array does.
#[derive(Clone, Copy, Debug, PartialEq, Eq)]
pub enum ArrayOperation {
    /// `size`
    Size,
    /// `empty?`
    IsEmpty,
    /// `[]`
    Get,
    /// `[]?`
    GetOrNil,
    /// `[]=`
    Set,
    /// `<<`
    Append,
    /// `push`
    Push,
    /// `pop`
    Pop,
    /// `pop?`
    PopOrNil,
    /// `shift`
    Shift,
    /// `shift?`
    ShiftOrNil,
    /// `first`
    First,
    /// `last`
    Last,
    /// `clear`
    Clear,
}

/// What a hash does.
#[derive(Clone, Copy, Debug, PartialEq, Eq)]
pub enum HashOperation {
    /// `size`
    Size,
    /// `empty?`
    IsEmpty,
    /// `[]`
    Get,
    /// `[]?`
    GetOrNil,
    /// `[]=`
    Set,
    /// `has_key?`
    HasKey,
    /// `delete`
    Delete,
    /// `keys`
    Keys,
    /// `values`
    Values,
    /// `clear`
    Clear,
}

/// What a channel does.
#[derive(Clone, Copy, Debug, PartialEq, Eq)]
pub enum ChannelOperation {
    /// `new` without an argument.
    New,
    /// `new` with a capacity.
    NewSized,
    /// `send`
    Send,
    /// `receive`
    Receive,
    /// `receive?`
    ReceiveOrNil,
    /// `close`
    Close,
    /// `closed?`
    IsClosed,
}

/// What an execution context does.
#[derive(Clone, Copy, Debug, PartialEq, Eq)]
pub enum ContextOperation {
    /// `new` of a concurrent context.
    NewConcurrent,
    /// `new` of a parallel context.
    NewParallel,
    /// `new` of an isolated context.
    NewIsolated,
    /// `spawn` of a concurrent context.
    SpawnConcurrent,
    /// `spawn` of a parallel context.
    SpawnParallel,
    /// `spawn` of an isolated context.
    SpawnIsolated,
    /// `wait` of an isolated context.
    Wait,
}

/// A built-in method.
#[derive(Clone, Copy, Debug, PartialEq, Eq)]
pub enum Operation {
    /// It reads its receiver and its arguments alone.
    Scalar(ScalarOperation),
    /// It reads or changes an array.
    Array(ArrayOperation),
    /// It reads or changes a hash.
    Hash(HashOperation),
    /// It makes, reads or changes a channel.
    Channel(ChannelOperation),
    /// It makes a context, or has to do with its fibers.
    Context(ContextOperation),
}
