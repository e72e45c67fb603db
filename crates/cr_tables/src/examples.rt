//! What the world of a small program answers.
ghost use Rattle.cr_tables.specs.Examples.{Chooses, GoesOn};

/// Calls: the most special match of the first place that has one, built-in methods, and who finds the top level.
pub fn calls_are_chosen()
    ensures { Chooses }
{}

/// Where a `super` and the making of an object go.
pub fn supers_go_on()
    ensures { GoesOn }
{}
