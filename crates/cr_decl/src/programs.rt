//! Whole programs.

ghost use Rattle.cr_bodies.specs.Nests.{Nests};
ghost use Rattle.cr_readers.specs.Cursor.{state_of};
ghost use Rattle.cr_readers.specs.Declarations as declarations;
ghost use Rattle.cr_readers.specs.Descent.{read};
ghost use Rattle.cr_readers.specs.Reads.{Reads};
ghost use Rattle.std.specs.Prelude.{◌≡◌};
ghost use Rattle.cr_decl.specs.Lists as members;
ghost use Rattle.cr_grammar.specs.Wanted as wanted;
ghost use Rattle.cr_readers.specs.Lists as lists;
ghost use Rattle.cr_readers.specs.Reader as reader;
ghost use Rattle.cr_readers.specs.Reader.{passes};
ghost use Rattle.cr_words.specs.Lists.{gather};

use crate::declarations::Declarations;
use cr_grammar::{Tree, Wanted, Within};
use cr_readers::{Cursor, ParseFault};
use cr_syntax::TokenLook;
use cr_words::{begins_stmt, separators};
use sqlite_items::{Boxed, Items};
use std::alloc::Global;

/// What surrounds a line that stands in nothing.
fn top() -> Within
    ensures { result ≡ wanted.top }
{
    Within {
        class: false,
        method: false,
        initialize: false,
        block: false,
        in_loop: false,
    }
}

/// Whether one more item begins.
fn begins_item(cursor: &Cursor<'_>) -> bool
    ensures { result ≡ passes declarations.begins_item (state_of cursor.now).rest }
{
    match cursor.token() {
        Some(token) => match token.kind.look() {
            TokenLook::Class | TokenLook::Module | TokenLook::Def => true,
            other => begins_stmt(top(), other),
        },
        None => false,
    }
}

impl<
    F: Fn(Global, usize, usize, Wanted, &mut Cursor<'_>) -> Result<Boxed<Tree>, ParseFault>,
> Declarations<F> {
    /// A method or a statement.
    fn method_or_statement(&self, cursor: &mut Cursor<'_>) -> Result<Boxed<Tree>, ParseFault>
        requires { Nests self.now.parser.turns self.now.parser.deep (F.pre self.now.parser.inside) (F.post self.now.parser.inside) }
        ensures { Reads (members.method_or_statement self.now.parser.turns (read self.now.parser.turns self.now.parser.deep) (state_of cursor.old)) result (state_of cursor.new) }
    {
        if cursor.sees(TokenLook::Def) {
            return self.def(cursor, false);
        }
        self.parser.read(cursor, Wanted::Stmt(top()))
    }

    /// A class, a module, a method or a statement.
    fn item(&self, cursor: &mut Cursor<'_>) -> Result<Boxed<Tree>, ParseFault>
        requires { Nests self.now.parser.turns self.now.parser.deep (F.pre self.now.parser.inside) (F.post self.now.parser.inside) }
        ensures { Reads (declarations.item self.now.parser.turns (read self.now.parser.turns self.now.parser.deep) (state_of cursor.old)) result (state_of cursor.new) }
    {
        if cursor.sees(TokenLook::Class) {
            return self.class(cursor);
        }
        if cursor.sees(TokenLook::Module) {
            return self.module(cursor);
        }
        self.method_or_statement(cursor)
    }

    /// An item, beside the one before it.
    #[tactic(auto, unfolding(cr_readers::specs::Reader::beside, cr_readers::specs::Cursor::left_beside))]
    fn item_beside(&self, cursor: &mut Cursor<'_>) -> Result<Boxed<Tree>, ParseFault>
        requires { Nests self.now.parser.turns self.now.parser.deep (F.pre self.now.parser.inside) (F.post self.now.parser.inside) }
        ensures { Reads (reader.beside (declarations.item self.now.parser.turns (read self.now.parser.turns self.now.parser.deep)) (state_of cursor.old)) result (state_of cursor.new) }
    {
        let height = cursor.height;
        let tree = self.item(cursor)?;
        cursor.leave_beside(height);
        Ok(tree)
    }

    /// The items behind those that were found.
    #[tactic(auto, using(cr_words::proofs::Loops::lines_more, cr_words::proofs::Loops::lines_last, cr_words::proofs::Loops::lines_stop, cr_words::proofs::Loops::lines_fail, cr_words::proofs::Loops::lines_end))]
    fn more_items(
        &self,
        cursor: &mut Cursor<'_>,
        mut found: Items<Tree>,
    ) -> Result<Items<Tree>, ParseFault>
        requires { Nests self.now.parser.turns self.now.parser.deep (F.pre self.now.parser.inside) (F.post self.now.parser.inside) }
        ensures { Reads (gather found (lists.lines self.now.parser.turns declarations.begins_item (reader.beside (declarations.item self.now.parser.turns (read self.now.parser.turns self.now.parser.deep))) self.now.parser.turns (state_of cursor.old))) result (state_of cursor.new) }
    {
        for _turn in 0..self.parser.turns {
            if !begins_item(cursor) {
                return Ok(found);
            }
            found.push(self.item_beside(cursor)?.into_inner())?;
            if !self.parser.behind_line(cursor)? {
                return Ok(found);
            }
        }
        Err(ParseFault::NoMemory)
    }

    /// The items of a program.
    #[tactic(auto, using(cr_words::proofs::Loops::gather_none))]
    fn items(&self, cursor: &mut Cursor<'_>) -> Result<Items<Tree>, ParseFault>
        requires { Nests self.now.parser.turns self.now.parser.deep (F.pre self.now.parser.inside) (F.post self.now.parser.inside) }
        ensures { Reads (lists.stmts self.now.parser.turns declarations.begins_item (reader.beside (declarations.item self.now.parser.turns (read self.now.parser.turns self.now.parser.deep))) (state_of cursor.old)) result (state_of cursor.new) }
    {
        separators(cursor, self.parser.turns)?;
        self.more_items(cursor, Items::new(self.parser.alloc))
    }

    /// A whole program, up to the end of its tokens. It fails with the fault of the first token that nothing accepts or that
    /// makes one level or node too many, and with `NoMemory` where memory fails or no turn is left.
    pub fn program(&self, cursor: &mut Cursor<'_>) -> Result<Boxed<Tree>, ParseFault>
        requires { Nests self.now.parser.turns self.now.parser.deep (F.pre self.now.parser.inside) (F.post self.now.parser.inside) }
        ensures { Reads (declarations.program self.now.parser.turns (read self.now.parser.turns self.now.parser.deep) (state_of cursor.old)) result (state_of cursor.new) }
    {
        let list = self.items(cursor)?;
        cursor.expect(TokenLook::End)?;
        let tree = Tree::Statements { list };
        Ok(Boxed::new(self.parser.alloc, tree)?)
    }
}
