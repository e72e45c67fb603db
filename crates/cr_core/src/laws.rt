// What holds of the rows of all core trees.
ghost use Rattle.cr_core.specs.Core.{Core};
ghost use Rattle.cr_core.specs.Arena.{rows, outermost};
ghost use Rattle.cr_core.specs.Standing.{Stands, Shaped, IsArena};

/// The rows of core trees whose nodes have the parts that their forms want are an arena.
pub fn rows_are_an_arena()
    ensures { (trees : Core) → Shaped trees → IsArena (rows trees) }
{}

/// Core trees can be read from their rows: each node stands at its number with its form, its place and what surrounds it,
/// and its parts are the rows of the trees that are its parts.
pub fn rows_are_the_trees()
    ensures { (trees : Core) → Stands (rows trees) outermost 0 trees }
{}
