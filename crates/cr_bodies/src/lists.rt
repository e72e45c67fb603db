//! Lists: what stands between commas, and statements a line each.

ghost use Rattle.std.specs.Prelude.{◌≡◌};
ghost use Rattle.cr_syntax.specs.declared.look.TokenLook.TheVariants as l;
ghost use Rattle.cr_readers.specs.Reader as reader;
ghost use Rattle.cr_readers.specs.Reader.{passes};
ghost use Rattle.cr_readers.specs.Lists as lists;
ghost use Rattle.cr_readers.specs.Cursor.{state_of};
ghost use Rattle.cr_readers.specs.Reads.{Reads};
ghost use Rattle.cr_grammar.specs.Wanted as wanted;
ghost use Rattle.cr_readers.specs.Bodies as bodies;
ghost use Rattle.cr_readers.specs.Primaries as primaries;
ghost use Rattle.cr_readers.specs.Statements as statements;
ghost use Rattle.cr_readers.specs.Descent.{read};
ghost use Rattle.cr_bodies.specs.Nests.{Nests, Nestable};
ghost use Rattle.cr_words.specs.Lists.{gather, behind_line};
ghost use Rattle.cr_bodies.specs.Items as items;

use crate::item::{Item, Lines};
use crate::parser::Parser;
use cr_grammar::{Tree, Wanted, Within};
use cr_readers::{Cursor, ParseFault};
use cr_syntax::TokenLook;
use cr_words::{add, begins_block, begins_stmt, ident, separators};
use sqlite_items::{Boxed, Items};
use std::alloc::Global;

/// Whether one more line begins.
fn begins_line(cursor: &Cursor<'_>, lines: Lines) -> bool
    ensures { result ≡ passes (items.begins lines) (state_of cursor.now).rest }
{
    match cursor.token() {
        Some(token) => match lines {
            Lines::Body(within) | Lines::Alone(within) => begins_stmt(within, token.kind.look()),
        },
        None => false,
    }
}

impl<
    F: Fn(Global, usize, usize, Wanted, &mut Cursor<'_>) -> Result<Boxed<Tree>, ParseFault>,
> Parser<F> {
    /// One of the lines.
    fn statement(&self, cursor: &mut Cursor<'_>, lines: Lines) -> Result<Boxed<Tree>, ParseFault>
        requires { Nests self.now.turns self.now.deep (F.pre self.now.inside) (F.post self.now.inside) }
        ensures { Reads (items.statement (read self.now.turns self.now.deep) lines (state_of cursor.old)) result (state_of cursor.new) }
    {
        match lines {
            Lines::Body(within) => self.part(cursor, Wanted::Stmt(within)),
            Lines::Alone(within) => self.beside(cursor, Wanted::Stmt(within)),
        }
    }

    /// Goes behind the separators after a line, and tells whether there are any: else no line follows.
    #[tactic(auto, unfolding(cr_words::specs::Lists::behind_line))]
    pub fn behind_line(&self, cursor: &mut Cursor<'_>) -> Result<bool, ParseFault>
        ensures { Reads (behind_line self.now.turns (state_of cursor.old)) result (state_of cursor.new) }
    {
        if !cursor.sees(TokenLook::Newline) {
            return Ok(false);
        }
        cursor.expect(TokenLook::Newline)?;
        separators(cursor, self.turns)?;
        Ok(true)
    }

    /// The lines behind those that were found.
    #[tactic(auto, using(cr_words::proofs::Loops::lines_more, cr_words::proofs::Loops::lines_last, cr_words::proofs::Loops::lines_stop, cr_words::proofs::Loops::lines_fail, cr_words::proofs::Loops::lines_end))]
    fn lines(
        &self,
        cursor: &mut Cursor<'_>,
        lines: Lines,
        mut found: Items<Tree>,
    ) -> Result<Items<Tree>, ParseFault>
        requires { Nests self.now.turns self.now.deep (F.pre self.now.inside) (F.post self.now.inside) }
        ensures { Reads (gather found (lists.lines self.now.turns (items.begins lines) (items.statement (read self.now.turns self.now.deep) lines) self.now.turns (state_of cursor.old))) result (state_of cursor.new) }
    {
        for _turn in 0..self.turns {
            if !begins_line(cursor, lines) {
                return Ok(found);
            }
            add(
                self.alloc,
                &mut found,
                self.statement(cursor, lines)?.into_inner(),
            )?;
            if !self.behind_line(cursor)? {
                return Ok(found);
            }
        }
        Err(ParseFault::NoMemory)
    }

    /// A list of statements.
    #[tactic(auto, using(cr_words::proofs::Loops::gather_none))]
    pub fn stmts(&self, cursor: &mut Cursor<'_>, lines: Lines) -> Result<Items<Tree>, ParseFault>
        requires { Nests self.now.turns self.now.deep (F.pre self.now.inside) (F.post self.now.inside) }
        ensures { Reads (lists.stmts self.now.turns (items.begins lines) (items.statement (read self.now.turns self.now.deep) lines) (state_of cursor.old)) result (state_of cursor.new) }
    {
        separators(cursor, self.turns)?;
        self.lines(cursor, lines, Items::new(self.alloc))
    }

    /// A parameter of a block.
    #[tactic(auto, unfolding(cr_readers::specs::Bodies::block_parameter))]
    fn block_parameter(&self, cursor: &mut Cursor<'_>) -> Result<Boxed<Tree>, ParseFault>
        requires { Nests self.now.turns self.now.deep (F.pre self.now.inside) (F.post self.now.inside) }
        ensures { Reads (bodies.block_parameter self.now.turns (read self.now.turns self.now.deep) (state_of cursor.old)) result (state_of cursor.new) }
    {
        let name = ident(self.alloc, cursor)?;
        cursor.grow(name.at)?;
        let tree = Tree::Parameter {
            at: name.at,
            instance: false,
            name: name.text,
            restriction: None,
        };
        Ok(Boxed::new(self.alloc, tree)?)
    }

    /// A parameter of a block, as a part.
    #[tactic(auto, unfolding(cr_readers::specs::Reader::part, cr_readers::specs::Cursor::entered, cr_readers::specs::Cursor::left_part))]
    fn block_parameter_part(&self, cursor: &mut Cursor<'_>) -> Result<Boxed<Tree>, ParseFault>
        requires { Nests self.now.turns self.now.deep (F.pre self.now.inside) (F.post self.now.inside) }
        ensures { Reads (reader.part (bodies.block_parameter self.now.turns (read self.now.turns self.now.deep)) (state_of cursor.old)) result (state_of cursor.new) }
    {
        let height = cursor.enter();
        let tree = self.block_parameter(cursor)?;
        cursor.leave(height);
        Ok(tree)
    }

    /// `k => v`
    #[tactic(auto, unfolding(cr_readers::specs::Primaries::pair))]
    pub fn entry(
        &self,
        cursor: &mut Cursor<'_>,
        wanted: Wanted,
        within: Within,
        free: bool,
    ) -> Result<Boxed<Tree>, ParseFault>
        requires nestable { Nestable wanted }
        requires nests { Nests self.now.turns self.now.deep (F.pre self.now.inside) (F.post self.now.inside) }
        ensures { Reads (primaries.pair self.now.turns (read self.now.turns self.now.deep) within free (reader.part ((read self.now.turns self.now.deep) wanted)) (state_of cursor.old)) result (state_of cursor.new) }
    {
        let key = self.part(cursor, wanted)?;
        cursor.expect(TokenLook::Arrow)?;
        separators(cursor, self.turns)?;
        let value = self.part(cursor, wanted)?;
        let tree = Tree::Pair { key, value };
        Ok(Boxed::new(self.alloc, tree)?)
    }

    /// What stands between commas.
    fn item(&self, cursor: &mut Cursor<'_>, item: Item) -> Result<Boxed<Tree>, ParseFault>
        requires nestable { items.NestableItem item }
        requires nests { Nests self.now.turns self.now.deep (F.pre self.now.inside) (F.post self.now.inside) }
        ensures { Reads (items.item self.now.turns (read self.now.turns self.now.deep) item (state_of cursor.old)) result (state_of cursor.new) }
    {
        match item {
            Item::Part(wanted) => self.part(cursor, wanted),
            Item::Parameter => self.block_parameter_part(cursor),
            Item::Entry(within, free) => self.entry(cursor, Wanted::Or(within, free), within, free),
        }
    }

    /// A comma, and what stands behind it.
    #[tactic(auto, unfolding(crate::specs::Items::behind_comma))]
    fn item_behind(&self, cursor: &mut Cursor<'_>, item: Item) -> Result<Boxed<Tree>, ParseFault>
        requires nestable { items.NestableItem item }
        requires nests { Nests self.now.turns self.now.deep (F.pre self.now.inside) (F.post self.now.inside) }
        ensures { Reads ((items.behind_comma self.now.turns (read self.now.turns self.now.deep) item) (state_of cursor.old)) result (state_of cursor.new) }
    {
        cursor.expect(TokenLook::Comma)?;
        separators(cursor, self.turns)?;
        self.item(cursor, item)
    }

    /// What stands between commas, behind what was found.
    #[tactic(auto, using(cr_words::proofs::Loops::gather_turn, cr_words::proofs::Loops::gather_ends, cr_words::proofs::Loops::gather_fails))]
    fn items(
        &self,
        cursor: &mut Cursor<'_>,
        item: Item,
        mut found: Items<Tree>,
    ) -> Result<Items<Tree>, ParseFault>
        requires nestable { items.NestableItem item }
        requires nests { Nests self.now.turns self.now.deep (F.pre self.now.inside) (F.post self.now.inside) }
        ensures { Reads (gather found (reader.many (reader.seen l.Comma) (items.behind_comma self.now.turns (read self.now.turns self.now.deep) item) self.now.turns (state_of cursor.old))) result (state_of cursor.new) }
    {
        for _turn in 0..self.turns {
            if !cursor.sees(TokenLook::Comma) {
                return Ok(found);
            }
            found.push(self.item_behind(cursor, item)?.into_inner())?;
        }
        Err(ParseFault::NoMemory)
    }

    /// A list with commas.
    #[tactic(auto, unfolding(cr_words::specs::Lists::gather, crate::specs::Items::behind_comma))]
    pub fn listed(&self, cursor: &mut Cursor<'_>, item: Item) -> Result<Items<Tree>, ParseFault>
        requires nestable { items.NestableItem item }
        requires nests { Nests self.now.turns self.now.deep (F.pre self.now.inside) (F.post self.now.inside) }
        ensures { Reads (lists.listed self.now.turns (items.item self.now.turns (read self.now.turns self.now.deep) item) (state_of cursor.old)) result (state_of cursor.new) }
    {
        let mut found = Items::new(self.alloc);
        add(
            self.alloc,
            &mut found,
            self.item(cursor, item)?.into_inner(),
        )?;
        self.items(cursor, item, found)
    }
}
