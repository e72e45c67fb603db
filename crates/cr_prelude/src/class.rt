/// A class with built-in methods.
#[derive(Clone, Copy, Debug, PartialEq, Eq)]
pub enum BuiltinClass {
    Object,
    Nil,
    Bool,
    Int32,
    Int64,
    String,
    Array,
    Hash,
    Channel,
    /// `Fiber::ExecutionContext::Concurrent`
    Concurrent,
    /// `Fiber::ExecutionContext::Parallel`
    Parallel,
    /// `Fiber::ExecutionContext::Isolated`
    Isolated,
}

/// A line of the table of built-in methods: the method of this name that the class has with so many arguments. A block is
/// no argument. Unary `-` has none, and `new` is a method of the class that it makes.
#[derive(Clone, Copy, Debug)]
pub struct Builtin {
    pub class: BuiltinClass,
    pub name: &'static str,
    pub count: usize,
}
