ghost use Rattle.cr_descent.specs.Examples.{Refused, refusals};
ghost use Rattle.cr_descent.specs.Trees.{GroupsNotRight, Spelled, WorkersAreSpelled, trees};

/// `a + b = 1` is refused at the `=`, `f(x -y)` at `y`, `puts foo 1` at the `1`, `foo 1 do end.bar` at the dot, and so are an `elsif`
/// behind `unless`, a `break` outside a loop and a statement in a class.
pub fn texts_are_refused()
    ensures { Refused refusals }
{}

/// `x [1]` passes an array, and `x[1]` is an element. The block of `foo x do end` is that of `foo`, and behind `]` a `-` subtracts.
/// From `||` to `*` each operator binds tighter than the ones before it, and `-` before its operand the tightest. A modifier
/// takes its whole statement, and `initialize` may set instance variables.
pub fn texts_are_spelled()
    ensures { Spelled trees }
{}

/// `1 - 2 - 3` does not group to the right.
pub fn another_tree_is_not_spelled()
    ensures { GroupsNotRight }
{}

/// A program with a module, a generic class, contexts, spawned blocks, loops and a `case` is spelled.
pub fn whole_program_is_spelled()
    ensures { WorkersAreSpelled }
{}
