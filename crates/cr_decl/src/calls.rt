//! The calls: a whole program, and the body of a method.

ghost use Rattle.cr_bodies.specs.Nests.{Nestable};
ghost use Rattle.cr_descent.specs.Bodies.{AnswersBody, IsBody, SpellsBody, body_of};
ghost use Rattle.cr_descent.specs.Programs.{AnswersProgram, EndsOnce, IsOnly, IsProgram};
ghost use Rattle.cr_grammar.specs.Count.{nesting, nodes};
ghost use Rattle.cr_grammar.specs.Grammar.{Spells_in};
ghost use Rattle.cr_grammar.specs.declared.tree.Tree.{Tree};
ghost use Rattle.cr_grammar.specs.declared.wanted.Wanted.TheVariants.{Program};
ghost use Rattle.cr_readers.specs.Cursor.{start_of, state_of};
ghost use Rattle.cr_readers.specs.Descent as descent;
ghost use Rattle.cr_readers.specs.Reader.{Found, State, max_nesting, max_nodes};
ghost use Rattle.cr_readers.specs.Reads.{Reads};
ghost use Rattle.std.specs.Prelude.{length, ◌<◌, ◌≡◌, ◌≤◌};

use crate::declarations::Declarations;
use crate::laws::body_is_accepted;
use cr_bodies::Parser;
use cr_descent::{
    body_depth_is_enough, body_is_answered, depth_is_enough, program_is_accepted,
    program_is_answered,
};
use cr_grammar::{Tree, Wanted, Within};
use cr_parse::{MAX_DEPTH, MAX_TURNS, read};
use cr_readers::{Cursor, ParseFault};
use cr_syntax::{Token, TokenLook};
use sqlite_items::Boxed;
use std::alloc::Global;

/// What surrounds an item of a program.
const TOP: Within = Within {
    class: false,
    method: false,
    initialize: false,
    block: false,
    in_loop: false,
};

/// A construct that stands in a program. (A contract names a function of its own crate as a value, and none of another.)
fn nested(
    alloc: Global,
    turns: usize,
    deep: usize,
    wanted: Wanted,
    cursor: &mut Cursor<'_>,
) -> Result<Boxed<Tree>, ParseFault>
    requires { Nestable wanted }
    ensures { Reads (descent.read turns deep wanted (state_of cursor.old)) result (state_of cursor.new) }
{
    read(alloc, turns, deep, wanted, cursor)
}

/// Comes out as the reader of programs does.
#[tactic(auto, unfolding(cr_readers::specs::Descent::read))]
fn whole(alloc: Global, cursor: &mut Cursor<'_>) -> Result<Boxed<Tree>, ParseFault>
    ensures { Reads (descent.read MAX_TURNS MAX_DEPTH Program (state_of cursor.old)) result (state_of cursor.new) }
{
    let parser = Parser {
        alloc,
        turns: MAX_TURNS,
        deep: MAX_DEPTH - 1,
        inside: nested,
    };
    Declarations { parser }.program(cursor)
}

/// Comes out as the reader of bodies does.
fn whole_body(
    alloc: Global,
    within: Within,
    cursor: &mut Cursor<'_>,
) -> Result<Boxed<Tree>, ParseFault>
    ensures { Reads (body_of MAX_TURNS MAX_DEPTH within (state_of cursor.old)) result (state_of cursor.new) }
{
    let statements = read(alloc, MAX_TURNS, MAX_DEPTH, Wanted::Stmts(within), cursor)?;
    cursor.expect(TokenLook::End)?;
    Ok(statements)
}

/// The tree of a whole program.
///
/// `Unexpected` comes at the first token with which the tokens so far begin no program, `TooDeep` and `TooManyNodes` where all that
/// goes on is past the limit, and `NoMemory` where memory fails or more than `MAX_DEPTH` constructs stand in one another.
pub fn program(alloc: Global, list: &[Token]) -> Result<Tree, ParseFault>
    requires ended { EndsOnce list.now }
    ensures answer { AnswersProgram list.now result }

    // A program within the limits is refused nowhere.
    ensures accepted { (x : Tree) → IsProgram list.now x → IsOnly x result }

    // What is answered is what the reader finds, or want of memory; and the reader finds what is spelled to this depth.
    ensures reads { (s : State) × Reads (descent.read MAX_TURNS MAX_DEPTH Program (start_of list.now)) result s }
    ensures enough { (x : Tree) → Spells_in MAX_DEPTH Program list.now x → nodes x ≤ max_nodes → nesting x ≤ max_nesting → length list.now < MAX_TURNS → (s : State) × (descent.read MAX_TURNS MAX_DEPTH Program (start_of list.now) ≡ Found x s) }
{
    program_is_answered();
    program_is_accepted();
    depth_is_enough();
    let mut cursor = Cursor::new(list, TOP);
    Ok(whole(alloc, &mut cursor)?.into_inner())
}

/// The tree of the body of a method: its statements, in these surroundings, up to the end of the list.
///
/// `Unexpected` comes at the first token with which the tokens so far begin no body, and the others as [`program`] says.
pub fn body(alloc: Global, within: Within, list: &[Token]) -> Result<Tree, ParseFault>
    requires ended { EndsOnce list.now }
    ensures answer { AnswersBody within list.now result }

    // A body within the limits is refused nowhere.
    ensures accepted { (x : Tree) → IsBody within list.now x → IsOnly x result }

    // What is answered is what the reader finds, or want of memory; and the reader finds statements that are spelled to this depth.
    ensures reads { (s : State) × Reads (body_of MAX_TURNS MAX_DEPTH within (start_of list.now)) result s }
    ensures enough { (x : Tree) (body : SpellsBody within list.now x) → body.spelled.0 ≤ MAX_DEPTH → nodes x ≤ max_nodes → nesting x ≤ max_nesting → length list.now < MAX_TURNS → (s : State) × (body_of MAX_TURNS MAX_DEPTH within (start_of list.now) ≡ Found x s) }
{
    body_is_answered();
    body_is_accepted();
    body_depth_is_enough();
    let mut cursor = Cursor::new(list, within);
    Ok(whole_body(alloc, within, &mut cursor)?.into_inner())
}
