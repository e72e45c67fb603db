//! Bodies, blocks and arguments.

ghost use Rattle.std.specs.Prelude.{◌≡◌};
ghost use Rattle.cr_syntax.specs.declared.look.TokenLook.TheVariants as l;
ghost use Rattle.cr_readers.specs.Reader as reader;
ghost use Rattle.cr_readers.specs.Lists as lists;
ghost use Rattle.cr_readers.specs.Cursor.{state_of};
ghost use Rattle.cr_readers.specs.Reads.{Reads};
ghost use Rattle.cr_grammar.specs.Wanted as wanted;
ghost use Rattle.cr_readers.specs.Bodies as bodies;
ghost use Rattle.cr_readers.specs.Primaries as primaries;
ghost use Rattle.cr_readers.specs.Statements as statements;
ghost use Rattle.cr_readers.specs.Descent.{read};
ghost use Rattle.cr_bodies.specs.Nests.{Nests};
ghost use Rattle.cr_bodies.specs.Items as items;

use crate::item::{Item, Lines};
use crate::parser::Parser;
use cr_grammar::{Tree, Wanted, Within};
use cr_readers::{Cursor, ParseFault};
use cr_syntax::TokenLook;
use cr_words::{begins_block, begins_stmt, ident, separators};
use sqlite_items::{Boxed, Items};
use std::alloc::Global;

fn in_block(within: Within) -> Within
    ensures { result ≡ wanted.in_block within }
{
    Within {
        block: true,
        in_loop: false,
        ..within
    }
}

impl<
    F: Fn(Global, usize, usize, Wanted, &mut Cursor<'_>) -> Result<Boxed<Tree>, ParseFault>,
> Parser<F> {
    /// The statements of a body.
    #[tactic(auto, unfolding(cr_readers::specs::Bodies::body))]
    pub fn body(&self, cursor: &mut Cursor<'_>, within: Within) -> Result<Items<Tree>, ParseFault>
        requires { Nests self.now.turns self.now.deep (F.pre self.now.inside) (F.post self.now.inside) }
        ensures { Reads (bodies.body self.now.turns (read self.now.turns self.now.deep) within (state_of cursor.old)) result (state_of cursor.new) }
    {
        self.stmts(cursor, Lines::Body(within))
    }

    /// The parameters of a block.
    #[tactic(auto, unfolding(cr_readers::specs::Bodies::pars))]
    fn pars(&self, cursor: &mut Cursor<'_>) -> Result<Items<Tree>, ParseFault>
        requires { Nests self.now.turns self.now.deep (F.pre self.now.inside) (F.post self.now.inside) }
        ensures { Reads (bodies.pars self.now.turns (read self.now.turns self.now.deep) (state_of cursor.old)) result (state_of cursor.new) }
    {
        if !cursor.sees(TokenLook::Pipe) {
            return Ok(Items::new(self.alloc));
        }
        cursor.expect(TokenLook::Pipe)?;
        let names = self.listed(cursor, Item::Parameter)?;
        cursor.expect(TokenLook::Pipe)?;
        Ok(names)
    }

    /// `do .. end`
    #[tactic(auto, unfolding(cr_readers::specs::Bodies::doblock))]
    pub fn doblock(
        &self,
        cursor: &mut Cursor<'_>,
        within: Within,
    ) -> Result<Boxed<Tree>, ParseFault>
        requires { Nests self.now.turns self.now.deep (F.pre self.now.inside) (F.post self.now.inside) }
        ensures { Reads (bodies.doblock self.now.turns (read self.now.turns self.now.deep) within (state_of cursor.old)) result (state_of cursor.new) }
    {
        cursor.expect(TokenLook::Do)?;
        let parameters = self.pars(cursor)?;
        let body = self.body(cursor, in_block(within))?;
        cursor.expect(TokenLook::KeywordEnd)?;
        Ok(Boxed::new(self.alloc, Tree::Block { parameters, body })?)
    }

    /// `{ .. }`
    #[tactic(auto, unfolding(cr_readers::specs::Bodies::braces))]
    fn braces(&self, cursor: &mut Cursor<'_>, within: Within) -> Result<Boxed<Tree>, ParseFault>
        requires { Nests self.now.turns self.now.deep (F.pre self.now.inside) (F.post self.now.inside) }
        ensures { Reads (bodies.braces self.now.turns (read self.now.turns self.now.deep) within (state_of cursor.old)) result (state_of cursor.new) }
    {
        cursor.expect(TokenLook::OpenBrace)?;
        separators(cursor, self.turns)?;
        let parameters = self.pars(cursor)?;
        let body = self.body(cursor, in_block(within))?;
        cursor.expect(TokenLook::CloseBrace)?;
        Ok(Boxed::new(self.alloc, Tree::Block { parameters, body })?)
    }

    /// A block, which begins.
    fn block(&self, cursor: &mut Cursor<'_>, within: Within) -> Result<Boxed<Tree>, ParseFault>
        requires { Nests self.now.turns self.now.deep (F.pre self.now.inside) (F.post self.now.inside) }
        ensures { Reads (reader.choose (reader.seen l.OpenBrace) (bodies.braces self.now.turns (read self.now.turns self.now.deep) within) (bodies.doblock self.now.turns (read self.now.turns self.now.deep) within) (state_of cursor.old)) result (state_of cursor.new) }
    {
        if cursor.sees(TokenLook::OpenBrace) {
            return self.braces(cursor, within);
        }
        self.doblock(cursor, within)
    }

    /// A block, if one begins.
    #[tactic(auto, unfolding(cr_readers::specs::Bodies::maybe_block))]
    pub fn maybe_block(
        &self,
        cursor: &mut Cursor<'_>,
        within: Within,
        free: bool,
    ) -> Result<Option<Boxed<Tree>>, ParseFault>
        requires { Nests self.now.turns self.now.deep (F.pre self.now.inside) (F.post self.now.inside) }
        ensures { Reads (bodies.maybe_block self.now.turns (read self.now.turns self.now.deep) within free (state_of cursor.old)) result (state_of cursor.new) }
    {
        if !begins_block(cursor, free) {
            return Ok(None);
        }
        Ok(Some(self.block(cursor, within)?))
    }

    /// A block without parameters.
    #[tactic(auto, unfolding(cr_readers::specs::Bodies::plain))]
    pub fn plain(
        &self,
        cursor: &mut Cursor<'_>,
        within: Within,
        free: bool,
    ) -> Result<Items<Tree>, ParseFault>
        requires { Nests self.now.turns self.now.deep (F.pre self.now.inside) (F.post self.now.inside) }
        ensures { Reads (bodies.plain self.now.turns (read self.now.turns self.now.deep) within free (state_of cursor.old)) result (state_of cursor.new) }
    {
        if cursor.sees(TokenLook::OpenBrace) {
            cursor.expect(TokenLook::OpenBrace)?;
            let body = self.body(cursor, in_block(within))?;
            cursor.expect(TokenLook::CloseBrace)?;
            return Ok(body);
        }
        if !free {
            return Err(cursor.refuse());
        }
        cursor.expect(TokenLook::Do)?;
        let body = self.body(cursor, in_block(within))?;
        cursor.expect(TokenLook::KeywordEnd)?;
        Ok(body)
    }

    /// Arguments inside parentheses or brackets.
    #[tactic(auto, unfolding(cr_readers::specs::Bodies::inside))]
    pub fn arguments_inside(
        &self,
        cursor: &mut Cursor<'_>,
        within: Within,
    ) -> Result<Items<Tree>, ParseFault>
        requires { Nests self.now.turns self.now.deep (F.pre self.now.inside) (F.post self.now.inside) }
        ensures { Reads (bodies.inside self.now.turns (read self.now.turns self.now.deep) within (state_of cursor.old)) result (state_of cursor.new) }
    {
        self.listed(cursor, Item::Part(Wanted::Or(within, true)))
    }

    /// Arguments inside parentheses or brackets, unless they close at once.
    pub fn maybe_inside(
        &self,
        cursor: &mut Cursor<'_>,
        within: Within,
        close: TokenLook,
    ) -> Result<Items<Tree>, ParseFault>
        requires { Nests self.now.turns self.now.deep (F.pre self.now.inside) (F.post self.now.inside) }
        ensures { Reads (lists.unless_closed close (bodies.inside self.now.turns (read self.now.turns self.now.deep) within) (state_of cursor.old)) result (state_of cursor.new) }
    {
        if cursor.sees(close) {
            return Ok(Items::new(self.alloc));
        }
        self.arguments_inside(cursor, within)
    }

    /// `( .. )`
    #[tactic(auto, unfolding(cr_readers::specs::Bodies::enclosed))]
    fn enclosed(&self, cursor: &mut Cursor<'_>, within: Within) -> Result<Items<Tree>, ParseFault>
        requires { Nests self.now.turns self.now.deep (F.pre self.now.inside) (F.post self.now.inside) }
        ensures { Reads (bodies.enclosed self.now.turns (read self.now.turns self.now.deep) within (state_of cursor.old)) result (state_of cursor.new) }
    {
        cursor.expect(TokenLook::OpenParenthesis)?;
        separators(cursor, self.turns)?;
        let found = self.maybe_inside(cursor, within, TokenLook::CloseParenthesis)?;
        separators(cursor, self.turns)?;
        cursor.expect(TokenLook::CloseParenthesis)?;
        Ok(found)
    }

    /// Arguments in tight parentheses, if they open.
    #[tactic(auto, unfolding(cr_readers::specs::Bodies::arguments))]
    pub fn arguments(
        &self,
        cursor: &mut Cursor<'_>,
        within: Within,
    ) -> Result<Option<Items<Tree>>, ParseFault>
        requires { Nests self.now.turns self.now.deep (F.pre self.now.inside) (F.post self.now.inside) }
        ensures { Reads (bodies.arguments self.now.turns (read self.now.turns self.now.deep) within (state_of cursor.old)) result (state_of cursor.new) }
    {
        if !cursor.sees_tight(TokenLook::OpenParenthesis) {
            return Ok(None);
        }
        Ok(Some(self.enclosed(cursor, within)?))
    }
}
