//! What stands between others: line ends and commas.

ghost use Rattle.cr_readers.specs.Lists as lists;
ghost use Rattle.cr_readers.specs.Cursor.{state_of};
ghost use Rattle.cr_readers.specs.Reads.{Reads};

use cr_readers::{Cursor, ParseFault};
use cr_syntax::TokenLook;

/// Goes behind the separators that come, if any.
///
/// # Errors
///
/// `NoMemory` where more than `turns` come.
#[tactic(auto, unfolding(crate::specs::Lists::skip), using(crate::proofs::Loops::skip_turn, crate::proofs::Loops::skip_ends))]
pub fn separators(cursor: &mut Cursor<'_>, turns: usize) -> Result<(), ParseFault>
    ensures { Reads (lists.separators turns (state_of cursor.old)) result (state_of cursor.new) }
{
    for _turn in 0..turns {
        if !cursor.sees(TokenLook::Newline) {
            return Ok(());
        }
        cursor.take();
    }
    Err(ParseFault::NoMemory)
}

/// Goes behind the comma between two items, and the separators that follow it.
///
/// # Errors
///
/// `Unexpected` where no comma comes, and those of `separators`.
pub fn comma(cursor: &mut Cursor<'_>, turns: usize) -> Result<(), ParseFault>
    ensures { Reads (lists.comma turns (state_of cursor.old)) result (state_of cursor.new) }
{
    cursor.expect(TokenLook::Comma)?;
    separators(cursor, turns)
}
