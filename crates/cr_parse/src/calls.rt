//! The calls: an expression, a list of statements or a type at a cursor.

ghost use Rattle.cr_bodies.specs.Nests.{Nestable};
ghost use Rattle.cr_descent.specs.Answers.{Answers};
ghost use Rattle.cr_descent.specs.LimitLaws.{IsLimited};
ghost use Rattle.cr_parse.specs.Calls.{Accepts, IsDeepEnough, IsRead, KeepsList};
ghost use Rattle.cr_readers.specs.Cursor.{state_of};
ghost use Rattle.cr_readers.specs.Reads.{Restores};
ghost use Rattle.cr_syntax.specs.declared.token.Token.{Token};
ghost use Rattle.std.specs.Prelude.{List, length, true, ◌++◌, ◌<◌, ◌≡◌};

use crate::recursion::read;
use cr_descent::{readers_answer, within_is_found};
use cr_grammar::{Tree, Wanted};
use cr_readers::{Cursor, ParseFault};
use std::alloc::Global;

/// So many turns a loop may take: more than any list has tokens.
pub const MAX_TURNS: usize = usize::MAX;

/// So many constructs may stand in one another, parentheses among them.
pub const MAX_DEPTH: usize = 640;

/// Goes to the place of another cursor, which went on from the same tokens. No reader says that its cursor still has its list, so
/// the place is told by the number of tokens that are left.
fn catch_up(cursor: &mut Cursor<'_>, ahead: &Cursor<'_>)
    ensures rest { (front : List Token) → (state_of cursor.old).rest ≡ front ++ (state_of ahead.now).rest → (state_of cursor.new).rest ≡ (state_of ahead.now).rest }
    ensures counts { (cursor.new.depth ≡ ahead.now.depth) × (cursor.new.nodes ≡ ahead.now.nodes) × (cursor.new.height ≡ ahead.now.height) }
    ensures keeps { KeepsList cursor.old cursor.new }
{
    let left = ahead.list.len().saturating_sub(ahead.at);
    cursor.at = cursor.list.len().saturating_sub(left);
    cursor.depth = ahead.depth;
    cursor.nodes = ahead.nodes;
    cursor.height = ahead.height;
}

/// A list has fewer tokens than a loop may take turns.
fn turns_are_enough(cursor: &Cursor<'_>)
    ensures { length (state_of cursor.now).rest < MAX_TURNS }
{}

/// A construct at the cursor, or why there is none; then the cursor is as before.
fn answered(alloc: Global, wanted: Wanted, cursor: &mut Cursor<'_>) -> Result<Tree, ParseFault>
    requires nestable { Nestable wanted }
    requires limited { IsLimited wanted (state_of cursor.old) }
    ensures answer { Answers wanted (state_of cursor.old) result (state_of cursor.new) }
    ensures accepted { Accepts wanted (state_of cursor.old) result }
    ensures reads { IsRead MAX_TURNS MAX_DEPTH wanted (state_of cursor.old) result }
    ensures enough { IsDeepEnough MAX_TURNS MAX_DEPTH wanted (state_of cursor.old) }
    ensures keeps { KeepsList cursor.old cursor.new }
    ensures restores { Restores result cursor.old cursor.new }
{
    readers_answer();
    within_is_found();
    turns_are_enough(cursor);
    let mut ahead = cursor.mark();
    let tree = read(alloc, MAX_TURNS, MAX_DEPTH, wanted, &mut ahead)?;
    catch_up(cursor, &ahead);
    Ok(tree.into_inner())
}

/// Reads the longest expression at the cursor, in which a `do` is free, and goes behind it; its nodes are added to the count. The
/// cursor keeps its list and what surrounds it, and after an error it is as before.
///
/// `Unexpected` comes at the first token with which the tokens so far begin no expression, `TooDeep` and `TooManyNodes` where all
/// that goes on is past the limit, and `NoMemory` where memory fails or more than `MAX_DEPTH` constructs stand in one another.
pub fn expression(alloc: Global, cursor: &mut Cursor<'_>) -> Result<Tree, ParseFault>
    requires limited { IsLimited (Wanted.Or cursor.old.within true) (state_of cursor.old) }
    ensures answer { Answers (Wanted.Or cursor.old.within true) (state_of cursor.old) result (state_of cursor.new) }
    ensures accepted { Accepts (Wanted.Or cursor.old.within true) (state_of cursor.old) result }
    ensures reads { IsRead MAX_TURNS MAX_DEPTH (Wanted.Or cursor.old.within true) (state_of cursor.old) result }
    ensures enough { IsDeepEnough MAX_TURNS MAX_DEPTH (Wanted.Or cursor.old.within true) (state_of cursor.old) }
    ensures keeps { KeepsList cursor.old cursor.new }
    ensures restores { Restores result cursor.old cursor.new }
{
    answered(alloc, Wanted::Or(cursor.within, true), cursor)
}

/// Reads the longest list of statements at the cursor, as [`expression`] reads an expression.
pub fn statements(alloc: Global, cursor: &mut Cursor<'_>) -> Result<Tree, ParseFault>
    requires limited { IsLimited (Wanted.Stmts cursor.old.within) (state_of cursor.old) }
    ensures answer { Answers (Wanted.Stmts cursor.old.within) (state_of cursor.old) result (state_of cursor.new) }
    ensures accepted { Accepts (Wanted.Stmts cursor.old.within) (state_of cursor.old) result }
    ensures reads { IsRead MAX_TURNS MAX_DEPTH (Wanted.Stmts cursor.old.within) (state_of cursor.old) result }
    ensures enough { IsDeepEnough MAX_TURNS MAX_DEPTH (Wanted.Stmts cursor.old.within) (state_of cursor.old) }
    ensures keeps { KeepsList cursor.old cursor.new }
    ensures restores { Restores result cursor.old cursor.new }
{
    answered(alloc, Wanted::Stmts(cursor.within), cursor)
}

/// Reads the longest type at the cursor, as [`expression`] reads an expression.
pub fn written_type(alloc: Global, cursor: &mut Cursor<'_>) -> Result<Tree, ParseFault>
    requires limited { IsLimited (Wanted.Written true) (state_of cursor.old) }
    ensures answer { Answers (Wanted.Written true) (state_of cursor.old) result (state_of cursor.new) }
    ensures accepted { Accepts (Wanted.Written true) (state_of cursor.old) result }
    ensures reads { IsRead MAX_TURNS MAX_DEPTH (Wanted.Written true) (state_of cursor.old) result }
    ensures enough { IsDeepEnough MAX_TURNS MAX_DEPTH (Wanted.Written true) (state_of cursor.old) }
    ensures keeps { KeepsList cursor.old cursor.new }
    ensures restores { Restores result cursor.old cursor.new }
{
    answered(alloc, Wanted::Written(true), cursor)
}
