//! Look-ups in the table of built-in methods.

ghost use Rattle.std.specs.Prelude.{◌≡◌, ◌≢◌, ℕ, ◌<◌, ◌↔◌, IsTrue, length, map, slice_get, Some, IfSome, IfNone};
ghost use Rattle.cr_prelude.specs.Builtins.{lines, line_of, line_at};

use crate::class::{Builtin, BuiltinClass};
use crate::table::BUILTINS;
use cr_base::BuiltinId;

/// Whether this is the line of the class, the name and the number of arguments.
fn is_line(
    line: &(BuiltinClass, &str, usize),
    class: BuiltinClass,
    name: &str,
    count: usize,
) -> bool
    ensures { IsTrue result ↔ (line_at line.now ≡ record { class = class; name = name.now; count = count }) }
{
    let (of, named, taking) = *line;
    of == class && named == name && taking == count
}

/// The place of a line.
fn place(
    table: &[(BuiltinClass, &str, usize)],
    class: BuiltinClass,
    name: &str,
    count: usize,
) -> Option<usize>
    ensures some { IfSome result (λ at. slice_get (map line_at table.now) at ≡ Some (record { class = class; name = name.now; count = count })) }
    ensures within { IfSome result (λ at. at < length table.now) }
    ensures none { IfNone result ((at : ℕ) → slice_get (map line_at table.now) at ≢ Some (record { class = class; name = name.now; count = count })) }
{
    for (at, line) in table.iter().enumerate() {
        if is_line(line, class, name, count) {
            return Some(at);
        }
    }
    None
}

/// The number of the built-in method of this name that the class has with so many arguments, or none where the table has no
/// such line. It takes no memory.
#[tactic(auto, unfolding(crate::specs::Builtins::lines))]
pub fn builtin(class: BuiltinClass, name: &str, count: usize) -> Option<BuiltinId>
    ensures some { IfSome result (λ id. slice_get lines id.0 ≡ Some (record { class = class; name = name.now; count = count })) }
    ensures none { IfNone result ((at : ℕ) → slice_get lines at ≢ Some (record { class = class; name = name.now; count = count })) }
{
    let at = place(&BUILTINS, class, name, count)?;
    Some(BuiltinId(at as u32))
}

/// How many built-in methods there are: their numbers are those below.
#[tactic(auto, unfolding(crate::specs::Builtins::lines))]
pub fn builtin_count() -> usize
    ensures { result ≡ length lines }
{
    BUILTINS.len()
}

/// The line at a place.
fn line_of_table(table: &[(BuiltinClass, &'static str, usize)], at: usize) -> Builtin
    requires { at < length table.now }
    ensures { slice_get (map line_at table.now) at ≡ Some (line_of result) }
{
    let (class, name, count) = table[at];
    Builtin { class, name, count }
}

/// The line with this number.
#[tactic(auto, unfolding(crate::specs::Builtins::lines))]
pub fn line(id: BuiltinId) -> Builtin
    requires { id.0 < length lines }
    ensures { slice_get lines id.0 ≡ Some (line_of result) }
{
    line_of_table(&BUILTINS, id.0 as usize)
}
