//! The recursion: each construct that another may hold, with the readers of what it holds, so many deep.

ghost use Rattle.cr_bodies.specs.Nests.{Nests, Nestable};
ghost use Rattle.cr_readers.specs.Cursor.{state_of};
ghost use Rattle.cr_readers.specs.Descent as descent;
ghost use Rattle.cr_readers.specs.Reads.{Reads};

use crate::expressions::Expressions;
use cr_bodies::Parser;
use cr_grammar::{Tree, Wanted};
use cr_readers::{Cursor, ParseFault};
use sqlite_items::Boxed;
use std::alloc::Global;

/// A construct, by the parser of what it holds.
pub fn construct<
    F: Fn(Global, usize, usize, Wanted, &mut Cursor<'_>) -> Result<Boxed<Tree>, ParseFault> + Copy,
>(parser: Parser<F>, wanted: Wanted, cursor: &mut Cursor<'_>) -> Result<Boxed<Tree>, ParseFault>
    requires nestable { Nestable wanted }
    requires nests { Nests parser.turns parser.deep (F.pre parser.inside) (F.post parser.inside) }
    ensures { Reads (descent.reader parser.turns (descent.read parser.turns parser.deep) wanted (state_of cursor.old)) result (state_of cursor.new) }
{
    match wanted {
        Wanted::Written(with_arguments) => parser.written(cursor, with_arguments),
        Wanted::When(within, free) => Expressions { parser, within }.when(cursor, free),
        Wanted::Unary(within, free) => Expressions { parser, within }.unary(cursor, free),
        Wanted::Or(within, free) => Expressions { parser, within }.or(cursor, free),
        Wanted::Simple(within) => Expressions { parser, within }.simple(cursor),
        Wanted::Stmt(within) => Expressions { parser, within }.stmt(cursor),
        Wanted::Stmts(within) => Expressions { parser, within }.stmts(cursor),
        Wanted::Program => unreachable!(),
    }
}

/// A construct, with at most so many in one another.
pub fn read(
    alloc: Global,
    turns: usize,
    deep: usize,
    wanted: Wanted,
    cursor: &mut Cursor<'_>,
) -> Result<Boxed<Tree>, ParseFault>
    requires { Nestable wanted }
    ensures { Reads (descent.read turns deep wanted (state_of cursor.old)) result (state_of cursor.new) }
{
    if deep == 0 {
        return Err(ParseFault::NoMemory);
    }
    let parser = Parser {
        alloc,
        turns,
        deep: deep - 1,
        inside: read,
    };
    construct(parser, wanted, cursor)
}
