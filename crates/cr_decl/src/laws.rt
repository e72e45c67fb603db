//! What holds of every answer.

ghost use Rattle.cr_decl.specs.Bodies.{BodyIsAccepted};

use cr_descent::{longest_front, new_cursor_is_limited, one_tree, within_is_found};

/// What answers so of a body within the limits is its tree, or want of memory: it is refused nowhere.
pub fn body_is_accepted()
    ensures { BodyIsAccepted }
{
    longest_front();
    new_cursor_is_limited();
    one_tree();
    within_is_found();
}
