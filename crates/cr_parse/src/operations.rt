//! Operators and their operands.

ghost use Rattle.cr_bodies.specs.Nests.{Nests};
ghost use Rattle.cr_parse.specs.Levels as levels;
ghost use Rattle.cr_readers.specs.Cursor.{state_of};
ghost use Rattle.cr_readers.specs.Descent.{read};
ghost use Rattle.cr_readers.specs.Operations as operations;
ghost use Rattle.cr_readers.specs.Reader.{and_then, passes, pure, with_last};
ghost use Rattle.cr_readers.specs.Reads.{Reads};
ghost use Rattle.cr_words.specs.Gives.{Gives};
ghost use Rattle.cr_words.specs.Tables.{of_some_level};
ghost use Rattle.std.specs.Prelude.{◌≡◌, ◌<◌, IsTrue, false};

use crate::expressions::Expressions;
use cr_grammar::{Tree, Unary, Wanted};
use cr_readers::{Cursor, Operator, ParseFault};
use cr_syntax::TokenLook;
use cr_words::{
    Level, is_name, no_sign, operator_at, sees_any_operator, sees_operator, separators, whole,
};
use sqlite_items::Boxed;
use std::alloc::Global;

/// A tree, and the look of its last token.
pub type Operated = (Boxed<Tree>, TokenLook);

/// The next tighter level; the operands of the tightest are no operations.
fn tighter(level: Level) -> Option<Level>
    ensures level { result ≡ levels.tighter level }
    ensures rank { levels.HasRankBelow result (levels.rank level) }
{
    match level {
        Level::Or => Some(Level::And),
        Level::And => Some(Level::Cmp),
        Level::Cmp => Some(Level::Shift),
        Level::Shift => Some(Level::Sum),
        Level::Sum => Some(Level::Prod),
        Level::Prod => None,
    }
}

fn is_comparison(level: Level) -> bool
    ensures { result ≡ levels.is_comparison level }
{
    matches!(level, Level::Cmp)
}

/// An operation.
fn joined(
    alloc: Global,
    found: Operator,
    left: Operated,
    right: Operated,
) -> Result<Operated, ParseFault>
    ensures { Gives (Tree.Binary found.at found.operator left.0 right.0, right.1) result }
{
    let (left, _) = left;
    let (right, last) = right;
    let tree = Tree::Binary {
        at: found.at,
        operator: found.operator,
        left,
        right,
    };
    Ok((Boxed::new(alloc, tree)?, last))
}

impl<
    F: Fn(Global, usize, usize, Wanted, &mut Cursor<'_>) -> Result<Boxed<Tree>, ParseFault>,
> Expressions<F> {
    /// `!` or `-` before an operand.
    fn prefixed(
        &self,
        cursor: &mut Cursor<'_>,
        free: bool,
        look: TokenLook,
        operator: Unary,
    ) -> Result<Boxed<Tree>, ParseFault>
        requires { Nests self.now.parser.turns self.now.parser.deep (F.pre self.now.parser.inside) (F.post self.now.parser.inside) }
        ensures { Reads (operations.unary_of self.now.parser.turns (read self.now.parser.turns self.now.parser.deep) self.now.within free look (λ at x. Tree.Unary at operator x) (state_of cursor.old)) result (state_of cursor.new) }
    {
        let at = cursor.expect(look)?;
        cursor.grow(at)?;
        let operand = self.parser.part(cursor, Wanted::Unary(self.within, free))?;
        let tree = Tree::Unary {
            at,
            operator,
            operand,
        };
        Ok(Boxed::new(self.parser.alloc, tree)?)
    }

    /// An operand.
    pub fn unary(&self, cursor: &mut Cursor<'_>, free: bool) -> Result<Boxed<Tree>, ParseFault>
        requires { Nests self.now.parser.turns self.now.parser.deep (F.pre self.now.parser.inside) (F.post self.now.parser.inside) }
        ensures { Reads (operations.unary self.now.parser.turns (read self.now.parser.turns self.now.parser.deep) self.now.within free (state_of cursor.old)) result (state_of cursor.new) }
    {
        if cursor.sees(TokenLook::Bang) {
            return self.prefixed(cursor, free, TokenLook::Bang, Unary::Not);
        }
        if cursor.sees(TokenLook::Minus) {
            return self.prefixed(cursor, free, TokenLook::Minus, Unary::Negate);
        }
        let operand = self.postfix(cursor, free)?;
        whole(self.parser.alloc, operand)
    }

    /// An operand, and the look of its last token.
    fn unary_last(&self, cursor: &mut Cursor<'_>, free: bool) -> Result<Operated, ParseFault>
        requires { Nests self.now.parser.turns self.now.parser.deep (F.pre self.now.parser.inside) (F.post self.now.parser.inside) }
        ensures { Reads (with_last (operations.unary self.now.parser.turns (read self.now.parser.turns self.now.parser.deep) self.now.within free) (state_of cursor.old)) result (state_of cursor.new) }
    {
        let tree = self.unary(cursor, free)?;
        Ok((tree, cursor.before()))
    }

    /// Whether it is sure that nothing goes on behind an operand: no operator comes, and a turn is left to find that.
    fn ends(&self, cursor: &Cursor<'_>) -> bool
        ensures turns { IsTrue result → 0 < self.now.parser.turns }
        ensures none { IsTrue result → passes of_some_level (state_of cursor.now).rest ≡ false }
    {
        self.parser.turns > 0 && !sees_any_operator(cursor)
    }

    /// An operand of an operator of this level, with the operations of tighter levels.
    #[cycle(operations)]
    #[tactic(auto, using(crate::proofs::Levels::nothing_behind))]
    fn operand(
        &self,
        cursor: &mut Cursor<'_>,
        free: bool,
        level: Level,
    ) -> Result<Operated, ParseFault>
        requires { Nests self.now.parser.turns self.now.parser.deep (F.pre self.now.parser.inside) (F.post self.now.parser.inside) }
        ensures { Reads (levels.operand_of self.now.parser.turns (read self.now.parser.turns self.now.parser.deep) self.now.within free (levels.tighter level) (state_of cursor.old)) result (state_of cursor.new) }
    {
        match tighter(level) {
            None => self.unary_last(cursor, free),
            Some(tighter) => {
                let first = self.unary_last(cursor, free)?;
                if self.ends(cursor) {
                    return Ok(first);
                }
                self.behind(cursor, free, tighter, first)
            }
        }
    }

    /// An operator of this level and its operand.
    #[cycle(operations)]
    #[tactic(auto, unfolding(cr_readers::specs::Reader::part, cr_readers::specs::Cursor::entered, cr_readers::specs::Cursor::left_part))]
    fn operation(
        &self,
        cursor: &mut Cursor<'_>,
        free: bool,
        level: Level,
        left: Operated,
    ) -> Result<Operated, ParseFault>
        requires { Nests self.now.parser.turns self.now.parser.deep (F.pre self.now.parser.inside) (F.post self.now.parser.inside) }
        ensures { Reads (levels.operation self.now.parser.turns (read self.now.parser.turns self.now.parser.deep) self.now.within free level left (state_of cursor.old)) result (state_of cursor.new) }
    {
        let found = operator_at(cursor, level)?;
        cursor.wrap(found.at)?;
        no_sign(cursor, is_name(left.1) && found.spaced_minus)?;
        separators(cursor, self.parser.turns)?;
        let height = cursor.enter();
        let right = self.operand(cursor, free, level)?;
        cursor.leave(height);
        joined(self.parser.alloc, found, left, right)
    }

    /// Operators of this level and their operands.
    #[cycle(operations)]
    #[tactic(auto, using(cr_words::proofs::Loops::repeated_turn, cr_words::proofs::Loops::repeated_ends, cr_words::proofs::Loops::repeated_fails))]
    fn operations(
        &self,
        cursor: &mut Cursor<'_>,
        free: bool,
        level: Level,
        mut left: Operated,
    ) -> Result<Operated, ParseFault>
        requires { Nests self.now.parser.turns self.now.parser.deep (F.pre self.now.parser.inside) (F.post self.now.parser.inside) }
        ensures { Reads (levels.operations self.now.parser.turns (read self.now.parser.turns self.now.parser.deep) self.now.within free level left (state_of cursor.old)) result (state_of cursor.new) }
    {
        for _turn in 0..self.parser.turns {
            if !sees_operator(cursor, level) {
                return Ok(left);
            }
            left = self.operation(cursor, free, level, left)?;
        }
        Err(ParseFault::NoMemory)
    }

    /// What goes on at this level alone: one comparison at most.
    #[cycle(operations)]
    fn at_level(
        &self,
        cursor: &mut Cursor<'_>,
        free: bool,
        level: Level,
        left: Operated,
    ) -> Result<Operated, ParseFault>
        requires { Nests self.now.parser.turns self.now.parser.deep (F.pre self.now.parser.inside) (F.post self.now.parser.inside) }
        ensures { Reads (levels.at_level self.now.parser.turns (read self.now.parser.turns self.now.parser.deep) self.now.within free level left (state_of cursor.old)) result (state_of cursor.new) }
    {
        if !is_comparison(level) {
            return self.operations(cursor, free, level, left);
        }
        if !sees_operator(cursor, Level::Cmp) {
            return Ok(left);
        }
        self.operation(cursor, free, Level::Cmp, left)
    }

    /// What goes on behind an operand, up to this level.
    #[cycle(operations)]
    #[tactic(auto, using(crate::proofs::Levels::behind_steps))]
    fn behind(
        &self,
        cursor: &mut Cursor<'_>,
        free: bool,
        level: Level,
        left: Operated,
    ) -> Result<Operated, ParseFault>
        requires { Nests self.now.parser.turns self.now.parser.deep (F.pre self.now.parser.inside) (F.post self.now.parser.inside) }
        ensures { Reads (levels.behind self.now.parser.turns (read self.now.parser.turns self.now.parser.deep) self.now.within free level left (state_of cursor.old)) result (state_of cursor.new) }
    {
        let left = self.behind_tighter(cursor, free, level, left)?;
        self.at_level(cursor, free, level, left)
    }

    /// What goes on behind an operand, up to the next tighter level.
    #[cycle(operations)]
    fn behind_tighter(
        &self,
        cursor: &mut Cursor<'_>,
        free: bool,
        level: Level,
        left: Operated,
    ) -> Result<Operated, ParseFault>
        requires { Nests self.now.parser.turns self.now.parser.deep (F.pre self.now.parser.inside) (F.post self.now.parser.inside) }
        ensures { Reads (levels.behind_some self.now.parser.turns (read self.now.parser.turns self.now.parser.deep) self.now.within free (levels.tighter level) left (state_of cursor.old)) result (state_of cursor.new) }
    {
        match tighter(level) {
            None => Ok(left),
            Some(tighter) => self.behind(cursor, free, tighter, left),
        }
    }

    /// What goes on behind the first operand of a value.
    pub fn or_behind(
        &self,
        cursor: &mut Cursor<'_>,
        free: bool,
        left: Operated,
    ) -> Result<Boxed<Tree>, ParseFault>
        requires { Nests self.now.parser.turns self.now.parser.deep (F.pre self.now.parser.inside) (F.post self.now.parser.inside) }
        ensures { Reads (and_then (operations.or_from self.now.parser.turns (read self.now.parser.turns self.now.parser.deep) self.now.within free left (state_of cursor.old)) (λ y. pure y.0)) result (state_of cursor.new) }
    {
        if self.ends(cursor) {
            return Ok(left.0);
        }
        let (tree, _) = self.behind(cursor, free, Level::Or, left)?;
        Ok(tree)
    }

    /// A value.
    pub fn or(&self, cursor: &mut Cursor<'_>, free: bool) -> Result<Boxed<Tree>, ParseFault>
        requires { Nests self.now.parser.turns self.now.parser.deep (F.pre self.now.parser.inside) (F.post self.now.parser.inside) }
        ensures { Reads (operations.or self.now.parser.turns (read self.now.parser.turns self.now.parser.deep) self.now.within free (state_of cursor.old)) result (state_of cursor.new) }
    {
        let first = self.unary_last(cursor, free)?;
        self.or_behind(cursor, free, first)
    }
}
