//! The built-in classes, a line each. The place of a line, from 0, is the number of its class.
ghost use Rattle.std.specs.Prelude.{◌≡◌, ◌≤◌, map, slice_get};
ghost use Rattle.std.specs.List.{position};
ghost use Rattle.cr_names.specs.Names.{line_at, is_path, is_path_at, place_of_path, parameters_in, made_in, parameters_of_built_in, is_made, built_in_count};

/// The built-in classes: path, number of type parameters, and whether a `new` makes one.
pub const BUILT_IN: [(&str, usize, bool); 12] = [
    ("Object", 0, false),
    ("Nil", 0, false),
    ("Bool", 0, false),
    ("Int32", 0, false),
    ("Int64", 0, false),
    ("String", 0, false),
    ("Array", 1, false),
    ("Hash", 2, false),
    ("Channel", 1, true),
    ("Fiber::ExecutionContext::Concurrent", 0, true),
    ("Fiber::ExecutionContext::Parallel", 0, true),
    ("Fiber::ExecutionContext::Isolated", 0, true),
];

/// The number of the built-in class with this path.
#[tactic(auto, unfolding(crate::specs::Names::lines, crate::specs::Names::place_of_path))]
pub(crate) fn built_in(path: &str) -> Option<usize>
    ensures { result ≡ place_of_path path.now }
{
    place_in(&BUILT_IN, path)
}

fn place_in(table: &[(&str, usize, bool)], path: &str) -> Option<usize>
    ensures { result ≡ position (is_path path.now) (map line_at table.now) }
{
    line_with(table, path)
}

fn line_with(table: &[(&str, usize, bool)], path: &str) -> Option<usize>
    ensures { result ≡ position (is_path_at path.now) table.now }
{
    table.iter().position(|line| line.0 == path)
}

/// How many built-in classes there are.
#[tactic(auto, unfolding(crate::specs::Names::lines, crate::specs::Names::built_in_count))]
pub(crate) fn built_in_count() -> usize
    ensures count { result ≡ built_in_count }
    ensures few { result ≤ 100 }
{
    BUILT_IN.len()
}

/// How many type parameters the built-in class with this number has.
#[tactic(auto, unfolding(crate::specs::Names::lines, crate::specs::Names::parameters_of_built_in))]
pub(crate) fn parameters_of_built_in(place: usize) -> usize
    ensures { result ≡ parameters_of_built_in place }
{
    parameters_at(&BUILT_IN, place)
}

fn parameters_at(table: &[(&str, usize, bool)], place: usize) -> usize
    ensures { result ≡ parameters_in (slice_get (map line_at table.now) place) }
{
    match table.get(place) {
        Some(line) => line.1,
        None => 0,
    }
}

/// Whether a `new` makes an object of the built-in class with this number.
#[tactic(auto, unfolding(crate::specs::Names::lines, crate::specs::Names::is_made))]
pub(crate) fn is_made(place: usize) -> bool
    ensures { result ≡ is_made place }
{
    made_at(&BUILT_IN, place)
}

fn made_at(table: &[(&str, usize, bool)], place: usize) -> bool
    ensures { result ≡ made_in (slice_get (map line_at table.now) place) }
{
    match table.get(place) {
        Some(line) => line.2,
        None => false,
    }
}
