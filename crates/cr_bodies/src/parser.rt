//! What reads: so many turns a loop, so many constructs in one another, and the function that reads what is inside.

ghost use Rattle.cr_readers.specs.Reader.{part, beside};
ghost use Rattle.cr_readers.specs.Cursor.{state_of};
ghost use Rattle.cr_readers.specs.Reads.{Reads};
ghost use Rattle.cr_readers.specs.Descent.{read};
ghost use Rattle.cr_bodies.specs.Nests.{Nests, Nestable};

use cr_grammar::{Tree, Wanted};
use cr_readers::{Cursor, ParseFault};
use sqlite_items::Boxed;
use std::alloc::Global;

/// What reads a construct, and how deep it may go.
#[derive(Clone, Copy)]
pub struct Parser<F> {
    pub alloc: Global,
    /// So many turns a loop may take.
    pub turns: usize,
    /// So many constructs may stand in one another.
    pub deep: usize,
    /// Reads what is inside.
    pub inside: F,
}

impl<
    F: Fn(Global, usize, usize, Wanted, &mut Cursor<'_>) -> Result<Boxed<Tree>, ParseFault>,
> Parser<F> {
    /// A construct that stands in another.
    pub fn read(&self, cursor: &mut Cursor<'_>, wanted: Wanted) -> Result<Boxed<Tree>, ParseFault>
        requires nestable { Nestable wanted }
        requires nests { Nests self.now.turns self.now.deep (F.pre self.now.inside) (F.post self.now.inside) }
        ensures { Reads (read self.now.turns self.now.deep wanted (state_of cursor.old)) result (state_of cursor.new) }
    {
        (self.inside)(self.alloc, self.turns, self.deep, wanted, cursor)
    }

    /// A part of the node that was begun last.
    #[tactic(auto, unfolding(cr_readers::specs::Reader::part, cr_readers::specs::Cursor::entered, cr_readers::specs::Cursor::left_part))]
    pub fn part(&self, cursor: &mut Cursor<'_>, wanted: Wanted) -> Result<Boxed<Tree>, ParseFault>
        requires nestable { Nestable wanted }
        requires nests { Nests self.now.turns self.now.deep (F.pre self.now.inside) (F.post self.now.inside) }
        ensures { Reads (part (read self.now.turns self.now.deep wanted) (state_of cursor.old)) result (state_of cursor.new) }
    {
        let height = cursor.enter();
        let tree = self.read(cursor, wanted)?;
        cursor.leave(height);
        Ok(tree)
    }

    /// A part that stands beside what was read last.
    #[tactic(auto, unfolding(cr_readers::specs::Reader::beside, cr_readers::specs::Cursor::left_beside))]
    pub fn beside(&self, cursor: &mut Cursor<'_>, wanted: Wanted) -> Result<Boxed<Tree>, ParseFault>
        requires nestable { Nestable wanted }
        requires nests { Nests self.now.turns self.now.deep (F.pre self.now.inside) (F.post self.now.inside) }
        ensures { Reads (beside ((read self.now.turns self.now.deep) wanted) (state_of cursor.old)) result (state_of cursor.new) }
    {
        let height = cursor.height;
        let tree = self.read(cursor, wanted)?;
        cursor.leave_beside(height);
        Ok(tree)
    }
}
