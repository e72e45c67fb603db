//! What stands at the head of a postfix, by its first token.

ghost use Rattle.std.specs.Prelude.{◌≡◌, IsTrue, false};
ghost use Rattle.cr_syntax.specs.declared.look.TokenLook.TheVariants as l;
ghost use Rattle.cr_grammar.specs.Wanted as wanted;
ghost use Rattle.cr_readers.specs.Cursor.{state_of};
ghost use Rattle.cr_readers.specs.Descent.{read};
ghost use Rattle.cr_readers.specs.Goes as goes;
ghost use Rattle.cr_readers.specs.Lists as lists;
ghost use Rattle.cr_readers.specs.Operand as operand;
ghost use Rattle.cr_readers.specs.Primaries as primaries;
ghost use Rattle.cr_readers.specs.Reader as reader;
ghost use Rattle.cr_readers.specs.Reads.{Reads};
ghost use Rattle.cr_bodies.specs.Nests.{Nests};
ghost use Rattle.cr_parse.specs.Named as behind;
ghost use Rattle.cr_parse.specs.Primaries as classes;

use crate::expressions::Expressions;
use crate::literals::word_node;
use cr_grammar::{Tree, Wanted, Within, Word};
use cr_readers::{Cursor, Operand, ParseFault};
use cr_syntax::TokenLook;
use cr_words::{above, begins_block, ident, instance_variable, named, separators, yielded};
use sqlite_items::Boxed;
use std::alloc::Global;

fn in_object(within: Within) -> bool
    ensures { result ≡ wanted.in_object within }
{
    within.class && within.method
}

/// Whether a token opens something, or makes something.
fn is_opening(look: TokenLook) -> bool
    ensures { result ≡ classes.is_opening look }
{
    matches!(
        look,
        TokenLook::Constant
            | TokenLook::OpenBracket
            | TokenLook::OpenBrace
            | TokenLook::OpenParenthesis
            | TokenLook::Spawn
    )
}

/// Whether a token begins a literal.
fn is_literal(look: TokenLook) -> bool
    ensures { result ≡ classes.is_literal look }
{
    matches!(
        look,
        TokenLook::Int32
            | TokenLook::Int64
            | TokenLook::Text
            | TokenLook::TextFirst
            | TokenLook::Nil
            | TokenLook::True
            | TokenLook::False
            | TokenLook::KeywordSelf
    )
}

/// Whether a token is a name, or a word that passes values on.
fn is_name(look: TokenLook) -> bool
    ensures { result ≡ classes.is_name look }
{
    matches!(
        look,
        TokenLook::Ident | TokenLook::InstanceVariable | TokenLook::Yield | TokenLook::Super
    )
}

/// Whether neither parentheses nor a block open behind a name.
fn is_alone(cursor: &Cursor<'_>, free: bool) -> bool
    ensures parentheses { IsTrue result → reader.passes (reader.tight_seen l.OpenParenthesis) (state_of cursor.now).rest ≡ false }
    ensures block { IsTrue result → reader.passes (goes.begins_block free) (state_of cursor.now).rest ≡ false }
{
    !cursor.sees_tight(TokenLook::OpenParenthesis) && !begins_block(cursor, free)
}

impl<
    F: Fn(Global, usize, usize, Wanted, &mut Cursor<'_>) -> Result<Boxed<Tree>, ParseFault>,
> Expressions<F> {
    /// The arguments in parentheses and the block behind a name. Most names stand alone.
    #[tactic(auto, unfolding(crate::specs::Named::behind_name), using(crate::proofs::Named::stays_alone))]
    fn behind_name(
        &self,
        cursor: &mut Cursor<'_>,
        free: bool,
        name: Word,
    ) -> Result<Operand, ParseFault>
        requires { Nests self.now.parser.turns self.now.parser.deep (F.pre self.now.parser.inside) (F.post self.now.parser.inside) }
        ensures { Reads (behind.behind_name self.now.parser.turns (read self.now.parser.turns self.now.parser.deep) self.now.within free name (state_of cursor.old)) result (state_of cursor.new) }
    {
        if is_alone(cursor, free) {
            return Ok(Operand::Name(name));
        }
        let arguments = self.parser.arguments(cursor, self.within)?;
        let block = self.parser.maybe_block(cursor, self.within, free)?;
        named(self.parser.alloc, name, arguments, block)
    }

    /// A name with its arguments in parentheses and its block.
    #[tactic(auto, unfolding(cr_readers::specs::Primaries::name, crate::specs::Named::behind_name))]
    fn name(&self, cursor: &mut Cursor<'_>, free: bool) -> Result<Operand, ParseFault>
        requires { Nests self.now.parser.turns self.now.parser.deep (F.pre self.now.parser.inside) (F.post self.now.parser.inside) }
        ensures { Reads (primaries.name self.now.parser.turns (read self.now.parser.turns self.now.parser.deep) self.now.within free (state_of cursor.old)) result (state_of cursor.new) }
    {
        let name = ident(self.parser.alloc, cursor)?;
        cursor.grow(name.at)?;
        self.behind_name(cursor, free, name)
    }

    /// `yield` with its arguments in parentheses, in a method.
    #[tactic(auto, unfolding(cr_readers::specs::Primaries::passed_on))]
    fn yielding(&self, cursor: &mut Cursor<'_>, free: bool) -> Result<Operand, ParseFault>
        requires { Nests self.now.parser.turns self.now.parser.deep (F.pre self.now.parser.inside) (F.post self.now.parser.inside) }
        ensures { Reads (reader.allow self.now.within.method (primaries.passed_on self.now.parser.turns (read self.now.parser.turns self.now.parser.deep) self.now.within free l.Yield operand.yielded) (state_of cursor.old)) result (state_of cursor.new) }
    {
        if !self.within.method {
            return Err(cursor.refuse());
        }
        let at = cursor.expect(TokenLook::Yield)?;
        cursor.grow(at)?;
        let arguments = self.parser.arguments(cursor, self.within)?;
        yielded(self.parser.alloc, at, arguments)
    }

    /// `super` with its arguments in parentheses, in a method.
    #[tactic(auto, unfolding(cr_readers::specs::Primaries::passed_on))]
    fn to_super(&self, cursor: &mut Cursor<'_>, free: bool) -> Result<Operand, ParseFault>
        requires { Nests self.now.parser.turns self.now.parser.deep (F.pre self.now.parser.inside) (F.post self.now.parser.inside) }
        ensures { Reads (reader.allow self.now.within.method (primaries.passed_on self.now.parser.turns (read self.now.parser.turns self.now.parser.deep) self.now.within free l.Super operand.above) (state_of cursor.old)) result (state_of cursor.new) }
    {
        if !self.within.method {
            return Err(cursor.refuse());
        }
        let at = cursor.expect(TokenLook::Super)?;
        cursor.grow(at)?;
        let arguments = self.parser.arguments(cursor, self.within)?;
        above(self.parser.alloc, at, arguments)
    }

    /// An instance variable, in a method of a class.
    #[tactic(auto, unfolding(cr_readers::specs::Primaries::variable))]
    fn variable(&self, cursor: &mut Cursor<'_>, free: bool) -> Result<Operand, ParseFault>
        ensures { Reads (reader.allow (wanted.in_object self.now.within) (primaries.variable self.now.parser.turns (read self.now.parser.turns self.now.parser.deep) self.now.within free) (state_of cursor.old)) result (state_of cursor.new) }
    {
        if !in_object(self.within) {
            return Err(cursor.refuse());
        }
        let name = instance_variable(self.parser.alloc, cursor)?;
        cursor.grow(name.at)?;
        Ok(Operand::Variable(name))
    }

    /// `self`, in a method of a class.
    fn keyword_self(&self, cursor: &mut Cursor<'_>, free: bool) -> Result<Boxed<Tree>, ParseFault>
        ensures { Reads (reader.allow (wanted.in_object self.now.within) (primaries.leaf self.now.parser.turns (read self.now.parser.turns self.now.parser.deep) self.now.within free l.KeywordSelf (λ at. Tree.KeywordSelf at)) (state_of cursor.old)) result (state_of cursor.new) }
    {
        if !in_object(self.within) {
            return Err(cursor.refuse());
        }
        let at = word_node(cursor, TokenLook::KeywordSelf)?;
        Ok(Boxed::new(self.parser.alloc, Tree::KeywordSelf { at })?)
    }

    /// `spawn` with its block.
    #[tactic(auto, unfolding(cr_readers::specs::Primaries::spawned))]
    fn spawned(&self, cursor: &mut Cursor<'_>, free: bool) -> Result<Boxed<Tree>, ParseFault>
        requires { Nests self.now.parser.turns self.now.parser.deep (F.pre self.now.parser.inside) (F.post self.now.parser.inside) }
        ensures { Reads (primaries.spawned self.now.parser.turns (read self.now.parser.turns self.now.parser.deep) self.now.within free (state_of cursor.old)) result (state_of cursor.new) }
    {
        let at = cursor.expect(TokenLook::Spawn)?;
        cursor.grow(at)?;
        let body = self.parser.plain(cursor, self.within, free)?;
        let tree = Tree::Spawn {
            at,
            context: None,
            body,
        };
        Ok(Boxed::new(self.parser.alloc, tree)?)
    }

    /// A statement, behind which parentheses close.
    fn statement_closed(&self, cursor: &mut Cursor<'_>) -> Result<Boxed<Tree>, ParseFault>
        requires { Nests self.now.parser.turns self.now.parser.deep (F.pre self.now.parser.inside) (F.post self.now.parser.inside) }
        ensures { Reads (classes.closing self.now.parser.turns (read self.now.parser.turns self.now.parser.deep (Wanted.Stmt self.now.within)) (state_of cursor.old)) result (state_of cursor.new) }
    {
        let tree = self.parser.read(cursor, Wanted::Stmt(self.within))?;
        separators(cursor, self.parser.turns)?;
        cursor.expect(TokenLook::CloseParenthesis)?;
        Ok(tree)
    }

    /// A statement in parentheses.
    fn parenthesized(&self, cursor: &mut Cursor<'_>) -> Result<Boxed<Tree>, ParseFault>
        requires { Nests self.now.parser.turns self.now.parser.deep (F.pre self.now.parser.inside) (F.post self.now.parser.inside) }
        ensures { Reads (lists.parenthesized self.now.parser.turns (read self.now.parser.turns self.now.parser.deep (Wanted.Stmt self.now.within)) (state_of cursor.old)) result (state_of cursor.new) }
    {
        cursor.expect(TokenLook::OpenParenthesis)?;
        separators(cursor, self.parser.turns)?;
        self.statement_closed(cursor)
    }

    /// A compound form.
    fn compound(&self, cursor: &mut Cursor<'_>, free: bool) -> Result<Boxed<Tree>, ParseFault>
        requires { Nests self.now.parser.turns self.now.parser.deep (F.pre self.now.parser.inside) (F.post self.now.parser.inside) }
        ensures { Reads (reader.by_look (classes.compound_by self.now.parser.turns (read self.now.parser.turns self.now.parser.deep) self.now.within free) (state_of cursor.old)) result (state_of cursor.new) }
    {
        match cursor.look() {
            TokenLook::If => self
                .parser
                .conditional(cursor, self.within, TokenLook::If, false),
            TokenLook::Unless => self
                .parser
                .conditional(cursor, self.within, TokenLook::Unless, true),
            TokenLook::While => self
                .parser
                .looping(cursor, self.within, TokenLook::While, false),
            TokenLook::Until => self
                .parser
                .looping(cursor, self.within, TokenLook::Until, true),
            TokenLook::Case => self.parser.cases(cursor, self.within),
            TokenLook::Select => self.parser.select(cursor, self.within, free),
            _ => Err(cursor.refuse()),
        }
    }

    /// What opens a bracket or makes something.
    fn opening_of(&self, cursor: &mut Cursor<'_>, free: bool) -> Result<Boxed<Tree>, ParseFault>
        requires { Nests self.now.parser.turns self.now.parser.deep (F.pre self.now.parser.inside) (F.post self.now.parser.inside) }
        ensures { Reads (reader.by_look (classes.opening_of self.now.parser.turns (read self.now.parser.turns self.now.parser.deep) self.now.within free) (state_of cursor.old)) result (state_of cursor.new) }
    {
        match cursor.look() {
            TokenLook::Constant => self.of_class(cursor, free),
            TokenLook::OpenBracket => self.array(cursor, free),
            TokenLook::OpenBrace => self.hash(cursor, free),
            TokenLook::OpenParenthesis => self.parenthesized(cursor),
            TokenLook::Spawn => self.spawned(cursor, free),
            _ => Err(cursor.refuse()),
        }
    }

    /// What opens a bracket or makes something; else a compound form.
    fn opening(&self, cursor: &mut Cursor<'_>, free: bool) -> Result<Boxed<Tree>, ParseFault>
        requires { Nests self.now.parser.turns self.now.parser.deep (F.pre self.now.parser.inside) (F.post self.now.parser.inside) }
        ensures { Reads (reader.by_look (classes.opening_by self.now.parser.turns (read self.now.parser.turns self.now.parser.deep) self.now.within free) (state_of cursor.old)) result (state_of cursor.new) }
    {
        if is_opening(cursor.look()) {
            return self.opening_of(cursor, free);
        }
        self.compound(cursor, free)
    }

    /// A literal.
    fn literal_of(&self, cursor: &mut Cursor<'_>, free: bool) -> Result<Boxed<Tree>, ParseFault>
        requires { Nests self.now.parser.turns self.now.parser.deep (F.pre self.now.parser.inside) (F.post self.now.parser.inside) }
        ensures { Reads (reader.by_look (classes.literal_of self.now.parser.turns (read self.now.parser.turns self.now.parser.deep) self.now.within free) (state_of cursor.old)) result (state_of cursor.new) }
    {
        match cursor.look() {
            TokenLook::Int32 | TokenLook::Int64 => self.number_node(cursor, free),
            TokenLook::Text => self.text(cursor, free),
            TokenLook::TextFirst => self.insertions(cursor, free),
            TokenLook::Nil => {
                let at = word_node(cursor, TokenLook::Nil)?;
                Ok(Boxed::new(self.parser.alloc, Tree::Nil { at })?)
            }
            TokenLook::True => {
                let at = word_node(cursor, TokenLook::True)?;
                Ok(Boxed::new(self.parser.alloc, Tree::True { at })?)
            }
            TokenLook::False => {
                let at = word_node(cursor, TokenLook::False)?;
                Ok(Boxed::new(self.parser.alloc, Tree::False { at })?)
            }
            TokenLook::KeywordSelf => self.keyword_self(cursor, free),
            _ => Err(cursor.refuse()),
        }
    }

    /// A literal; else what opens a bracket, makes something or is a compound form.
    fn literal(&self, cursor: &mut Cursor<'_>, free: bool) -> Result<Boxed<Tree>, ParseFault>
        requires { Nests self.now.parser.turns self.now.parser.deep (F.pre self.now.parser.inside) (F.post self.now.parser.inside) }
        ensures { Reads (reader.by_look (classes.literal_by self.now.parser.turns (read self.now.parser.turns self.now.parser.deep) self.now.within free) (state_of cursor.old)) result (state_of cursor.new) }
    {
        if is_literal(cursor.look()) {
            return self.literal_of(cursor, free);
        }
        self.opening(cursor, free)
    }

    /// A name, or a word that passes values on.
    fn name_of(&self, cursor: &mut Cursor<'_>, free: bool) -> Result<Operand, ParseFault>
        requires { Nests self.now.parser.turns self.now.parser.deep (F.pre self.now.parser.inside) (F.post self.now.parser.inside) }
        ensures { Reads (reader.by_look (classes.name_of self.now.parser.turns (read self.now.parser.turns self.now.parser.deep) self.now.within free) (state_of cursor.old)) result (state_of cursor.new) }
    {
        match cursor.look() {
            TokenLook::Ident => self.name(cursor, free),
            TokenLook::InstanceVariable => self.variable(cursor, free),
            TokenLook::Yield => self.yielding(cursor, free),
            TokenLook::Super => self.to_super(cursor, free),
            _ => Err(cursor.refuse()),
        }
    }

    /// A name, or a tree that stands at the head of a postfix.
    fn name_or_tree(&self, cursor: &mut Cursor<'_>, free: bool) -> Result<Operand, ParseFault>
        requires { Nests self.now.parser.turns self.now.parser.deep (F.pre self.now.parser.inside) (F.post self.now.parser.inside) }
        ensures { Reads (reader.by_look (classes.name_by self.now.parser.turns (read self.now.parser.turns self.now.parser.deep) self.now.within free) (state_of cursor.old)) result (state_of cursor.new) }
    {
        if is_name(cursor.look()) {
            return self.name_of(cursor, free);
        }
        Ok(Operand::Whole(self.literal(cursor, free)?))
    }

    /// What stands at the head of a postfix.
    #[tactic(auto, using(crate::proofs::Heads::primary_is))]
    pub fn primary(&self, cursor: &mut Cursor<'_>, free: bool) -> Result<Operand, ParseFault>
        requires { Nests self.now.parser.turns self.now.parser.deep (F.pre self.now.parser.inside) (F.post self.now.parser.inside) }
        ensures { Reads (primaries.primary self.now.parser.turns (read self.now.parser.turns self.now.parser.deep) self.now.within free (state_of cursor.old)) result (state_of cursor.new) }
    {
        self.name_or_tree(cursor, free)
    }
}
