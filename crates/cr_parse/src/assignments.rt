//! The tokens that assign.

ghost use Rattle.cr_parse.specs.Targets as targets;
ghost use Rattle.cr_readers.specs.Cursor.{state_of};
ghost use Rattle.cr_readers.specs.Reader as reader;
ghost use Rattle.cr_readers.specs.Reads.{Reads};
ghost use Rattle.cr_readers.specs.Statements as statements;
ghost use Rattle.cr_syntax.specs.Look.{look_of};
ghost use Rattle.std.specs.Prelude.{◌≡◌};

use cr_grammar::{Assignment, Tree};
use cr_readers::{Cursor, ParseFault};
use cr_syntax::TokenLook;
use cr_words::{any_assignment, field_assignment};
use sqlite_items::Boxed;

/// What is assigned.
#[derive(Clone, Copy)]
pub enum Target {
    /// A local or an instance variable.
    Variable,
    /// A field or an element, which `||=` does not assign.
    Link,
}

/// What a target is assigned, and by which operator at which place.
#[derive(Drop)]
pub struct Assigned {
    pub place: u32,
    pub operator: Assignment,
    pub value: Boxed<Tree>,
}

/// How a token assigns a target.
fn assignment(target: Target, look: TokenLook) -> Option<Assignment>
    ensures { result ≡ targets.table target look }
{
    match target {
        Target::Variable => any_assignment(look),
        Target::Link => field_assignment(look),
    }
}

/// Whether a token comes that assigns a target.
pub fn sees_assignment(cursor: &Cursor<'_>, target: Target) -> bool
    ensures { result ≡ reader.passes (statements.is_assigning (targets.table target)) (state_of cursor.now).rest }
{
    match cursor.token() {
        Some(token) => assignment(target, token.kind.look()).is_some(),
        None => false,
    }
}

/// A token that assigns a target, and its place.
pub fn assignment_at(
    cursor: &mut Cursor<'_>,
    target: Target,
) -> Result<(u32, Assignment), ParseFault>
    ensures { Reads (reader.take (λ t. statements.assigning_of t (targets.table target (look_of t.kind))) (state_of cursor.old)) result (state_of cursor.new) }
{
    if let Some(token) = cursor.token() {
        if let Some(found) = assignment(target, token.kind.look()) {
            let at = token.span.first;
            cursor.take();
            return Ok((at, found));
        }
    }
    Err(cursor.refuse())
}
