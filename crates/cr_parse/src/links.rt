//! A postfix: a primary, and the links behind it.

ghost use Rattle.std.specs.Prelude.{false};
ghost use Rattle.cr_syntax.specs.declared.look.TokenLook.TheVariants as l;
ghost use Rattle.cr_readers.specs.Cursor.{state_of};
ghost use Rattle.cr_readers.specs.Descent.{read};
ghost use Rattle.cr_readers.specs.Goes as goes;
ghost use Rattle.cr_readers.specs.Links as links;
ghost use Rattle.cr_readers.specs.Lists as lists;
ghost use Rattle.cr_readers.specs.Reader as reader;
ghost use Rattle.cr_readers.specs.Reads.{Reads};
ghost use Rattle.cr_bodies.specs.Nests.{Nests};
ghost use Rattle.cr_words.specs.Gives.{Gives};
ghost use Rattle.cr_parse.specs.Links as suffixes;
ghost use Rattle.cr_parse.specs.Primaries as classes;

use crate::expressions::Expressions;
use cr_grammar::{Tree, Wanted, Word};
use cr_readers::{Cursor, Operand, ParseFault};
use cr_syntax::TokenLook;
use cr_words::{ident, indexed, is_link, linked, separators, whole};
use sqlite_items::{Boxed, Items};
use std::alloc::Global;

/// What stands behind the receiver of a call and its `.`.
#[derive(Drop)]
struct Calling {
    name: Word,
    arguments: Option<Items<Tree>>,
    block: Option<Boxed<Tree>>,
}

/// Whether a value is of a type.
fn is_a(alloc: Global, at: u32, value: Boxed<Tree>, of: Boxed<Tree>) -> Result<Operand, ParseFault>
    ensures { Gives (Operand.Whole (Tree.IsA at value of)) result }
{
    let tree = Tree::IsA { at, value, of };
    Ok(Operand::Whole(Boxed::new(alloc, tree)?))
}

/// A tight `?`, if it comes.
fn maybe_question(cursor: &mut Cursor<'_>) -> Result<Option<u32>, ParseFault>
    ensures { Reads (lists.optional (reader.tight_seen l.Question) (reader.expect l.Question) (state_of cursor.old)) result (state_of cursor.new) }
{
    if !cursor.sees_tight(TokenLook::Question) {
        return Ok(None);
    }
    Ok(Some(cursor.expect(TokenLook::Question)?))
}

impl<
    F: Fn(Global, usize, usize, Wanted, &mut Cursor<'_>) -> Result<Boxed<Tree>, ParseFault>,
> Expressions<F> {
    /// A name behind its receiver, with its arguments and its block.
    #[tactic(auto, unfolding(crate::specs::Links::calling))]
    fn calling(&self, cursor: &mut Cursor<'_>, free: bool) -> Result<Calling, ParseFault>
        requires { Nests self.now.parser.turns self.now.parser.deep (F.pre self.now.parser.inside) (F.post self.now.parser.inside) }
        ensures { Reads (suffixes.calling self.now.parser.turns (read self.now.parser.turns self.now.parser.deep) self.now.within free (state_of cursor.old)) result (state_of cursor.new) }
    {
        let name = ident(self.parser.alloc, cursor)?;
        cursor.wrap(name.at)?;
        let arguments = self.parser.arguments(cursor, self.within)?;
        let block = self.parser.maybe_block(cursor, self.within, free)?;
        Ok(Calling {
            name,
            arguments,
            block,
        })
    }

    /// A name behind `.`, with its arguments and its block.
    #[tactic(auto, using(crate::proofs::Called::called_is))]
    fn called(
        &self,
        cursor: &mut Cursor<'_>,
        free: bool,
        receiver: Boxed<Tree>,
    ) -> Result<Operand, ParseFault>
        requires { Nests self.now.parser.turns self.now.parser.deep (F.pre self.now.parser.inside) (F.post self.now.parser.inside) }
        ensures { Reads (links.called self.now.parser.turns (read self.now.parser.turns self.now.parser.deep) self.now.within free receiver (state_of cursor.old)) result (state_of cursor.new) }
    {
        let call = self.calling(cursor, free)?;
        linked(
            self.parser.alloc,
            receiver,
            call.name,
            call.arguments,
            call.block,
        )
    }

    /// A type, behind which parentheses close.
    fn type_closed(&self, cursor: &mut Cursor<'_>) -> Result<Boxed<Tree>, ParseFault>
        requires { Nests self.now.parser.turns self.now.parser.deep (F.pre self.now.parser.inside) (F.post self.now.parser.inside) }
        ensures { Reads (classes.closing self.now.parser.turns (reader.part ((read self.now.parser.turns self.now.parser.deep) (Wanted.Written false))) (state_of cursor.old)) result (state_of cursor.new) }
    {
        let of = self.parser.part(cursor, Wanted::Written(false))?;
        separators(cursor, self.parser.turns)?;
        cursor.expect(TokenLook::CloseParenthesis)?;
        Ok(of)
    }

    /// A type in tight parentheses.
    fn asked_type(&self, cursor: &mut Cursor<'_>) -> Result<Boxed<Tree>, ParseFault>
        requires { Nests self.now.parser.turns self.now.parser.deep (F.pre self.now.parser.inside) (F.post self.now.parser.inside) }
        ensures { Reads (reader.only (reader.tight_seen l.OpenParenthesis) (lists.parenthesized self.now.parser.turns (reader.part ((read self.now.parser.turns self.now.parser.deep) (Wanted.Written false)))) (state_of cursor.old)) result (state_of cursor.new) }
    {
        if !cursor.sees_tight(TokenLook::OpenParenthesis) {
            return Err(cursor.refuse());
        }
        cursor.expect(TokenLook::OpenParenthesis)?;
        separators(cursor, self.parser.turns)?;
        self.type_closed(cursor)
    }

    /// `is_a?` behind `.`
    #[tactic(auto, unfolding(cr_readers::specs::Links::asked))]
    fn asked(
        &self,
        cursor: &mut Cursor<'_>,
        free: bool,
        receiver: Boxed<Tree>,
    ) -> Result<Operand, ParseFault>
        requires { Nests self.now.parser.turns self.now.parser.deep (F.pre self.now.parser.inside) (F.post self.now.parser.inside) }
        ensures { Reads (links.asked self.now.parser.turns (read self.now.parser.turns self.now.parser.deep) self.now.within free receiver (state_of cursor.old)) result (state_of cursor.new) }
    {
        let at = cursor.expect(TokenLook::IsA)?;
        cursor.wrap(at)?;
        let of = self.asked_type(cursor)?;
        is_a(self.parser.alloc, at, receiver, of)
    }

    /// `nil?` behind `.`
    #[tactic(auto, unfolding(cr_readers::specs::Links::asked_nil))]
    fn asked_nil(
        &self,
        cursor: &mut Cursor<'_>,
        free: bool,
        receiver: Boxed<Tree>,
    ) -> Result<Operand, ParseFault>
        ensures { Reads (links.asked_nil self.now.parser.turns (read self.now.parser.turns self.now.parser.deep) self.now.within free receiver (state_of cursor.old)) result (state_of cursor.new) }
    {
        let at = cursor.expect(TokenLook::IsNil)?;
        cursor.wrap(at)?;
        let tree = Tree::IsNil {
            at,
            value: receiver,
        };
        Ok(Operand::Whole(Boxed::new(self.parser.alloc, tree)?))
    }

    /// `spawn` behind `.`
    #[tactic(auto, unfolding(cr_readers::specs::Links::spawned_in))]
    fn spawned_in(
        &self,
        cursor: &mut Cursor<'_>,
        free: bool,
        receiver: Boxed<Tree>,
    ) -> Result<Operand, ParseFault>
        requires { Nests self.now.parser.turns self.now.parser.deep (F.pre self.now.parser.inside) (F.post self.now.parser.inside) }
        ensures { Reads (links.spawned_in self.now.parser.turns (read self.now.parser.turns self.now.parser.deep) self.now.within free receiver (state_of cursor.old)) result (state_of cursor.new) }
    {
        let at = cursor.expect(TokenLook::Spawn)?;
        cursor.wrap(at)?;
        let body = self.parser.plain(cursor, self.within, free)?;
        let tree = Tree::Spawn {
            at,
            context: Some(receiver),
            body,
        };
        Ok(Operand::Whole(Boxed::new(self.parser.alloc, tree)?))
    }

    /// What stands behind `.`
    fn behind_dot(
        &self,
        cursor: &mut Cursor<'_>,
        free: bool,
        receiver: Boxed<Tree>,
    ) -> Result<Operand, ParseFault>
        requires { Nests self.now.parser.turns self.now.parser.deep (F.pre self.now.parser.inside) (F.post self.now.parser.inside) }
        ensures { Reads (reader.by_look (links.behind_dot self.now.parser.turns (read self.now.parser.turns self.now.parser.deep) self.now.within free receiver) (state_of cursor.old)) result (state_of cursor.new) }
    {
        match cursor.look() {
            TokenLook::Ident => self.called(cursor, free, receiver),
            TokenLook::IsA => self.asked(cursor, free, receiver),
            TokenLook::IsNil => self.asked_nil(cursor, free, receiver),
            TokenLook::Spawn => self.spawned_in(cursor, free, receiver),
            _ => Err(cursor.refuse()),
        }
    }

    /// An index.
    #[tactic(auto, unfolding(cr_readers::specs::Links::at_index))]
    fn at_index(
        &self,
        cursor: &mut Cursor<'_>,
        free: bool,
        receiver: Boxed<Tree>,
    ) -> Result<Operand, ParseFault>
        requires { Nests self.now.parser.turns self.now.parser.deep (F.pre self.now.parser.inside) (F.post self.now.parser.inside) }
        ensures { Reads (links.at_index self.now.parser.turns (read self.now.parser.turns self.now.parser.deep) self.now.within free receiver (state_of cursor.old)) result (state_of cursor.new) }
    {
        let at = cursor.expect(TokenLook::OpenBracket)?;
        cursor.wrap(at)?;
        separators(cursor, self.parser.turns)?;
        let arguments = self.parser.arguments_inside(cursor, self.within)?;
        separators(cursor, self.parser.turns)?;
        cursor.expect(TokenLook::CloseBracket)?;
        let question = maybe_question(cursor)?;
        indexed(self.parser.alloc, at, receiver, arguments, question)
    }

    /// `.` and what stands behind it.
    fn dotted(
        &self,
        cursor: &mut Cursor<'_>,
        free: bool,
        receiver: Boxed<Tree>,
    ) -> Result<Operand, ParseFault>
        requires { Nests self.now.parser.turns self.now.parser.deep (F.pre self.now.parser.inside) (F.post self.now.parser.inside) }
        ensures { Reads (suffixes.dotted self.now.parser.turns (read self.now.parser.turns self.now.parser.deep) self.now.within free receiver (state_of cursor.old)) result (state_of cursor.new) }
    {
        cursor.expect(TokenLook::Dot)?;
        self.behind_dot(cursor, free, receiver)
    }

    /// A link of a receiver.
    fn link_of(
        &self,
        cursor: &mut Cursor<'_>,
        free: bool,
        receiver: Boxed<Tree>,
    ) -> Result<Operand, ParseFault>
        requires { Nests self.now.parser.turns self.now.parser.deep (F.pre self.now.parser.inside) (F.post self.now.parser.inside) }
        ensures { Reads (suffixes.link_of self.now.parser.turns (read self.now.parser.turns self.now.parser.deep) self.now.within free receiver (state_of cursor.old)) result (state_of cursor.new) }
    {
        if cursor.sees(TokenLook::Dot) {
            return self.dotted(cursor, free, receiver);
        }
        self.at_index(cursor, free, receiver)
    }

    /// A link.
    #[tactic(auto, unfolding(cr_readers::specs::Links::link))]
    fn link(
        &self,
        cursor: &mut Cursor<'_>,
        free: bool,
        operand: Operand,
    ) -> Result<Operand, ParseFault>
        requires { Nests self.now.parser.turns self.now.parser.deep (F.pre self.now.parser.inside) (F.post self.now.parser.inside) }
        ensures { Reads (links.link self.now.parser.turns (read self.now.parser.turns self.now.parser.deep) self.now.within free operand (state_of cursor.old)) result (state_of cursor.new) }
    {
        let receiver = whole(self.parser.alloc, operand)?;
        self.link_of(cursor, free, receiver)
    }

    /// The links behind an operand.
    #[tactic(auto, using(cr_words::proofs::Loops::repeated_turn, cr_words::proofs::Loops::repeated_ends, cr_words::proofs::Loops::repeated_fails))]
    fn links(
        &self,
        cursor: &mut Cursor<'_>,
        free: bool,
        mut operand: Operand,
    ) -> Result<Operand, ParseFault>
        requires { Nests self.now.parser.turns self.now.parser.deep (F.pre self.now.parser.inside) (F.post self.now.parser.inside) }
        ensures { Reads (reader.repeated goes.is_link (links.link self.now.parser.turns (read self.now.parser.turns self.now.parser.deep) self.now.within free) self.now.parser.turns operand (state_of cursor.old)) result (state_of cursor.new) }
    {
        for _turn in 0..self.parser.turns {
            if !is_link(cursor) {
                return Ok(operand);
            }
            operand = self.link(cursor, free, operand)?;
        }
        Err(ParseFault::NoMemory)
    }

    /// A primary and its links.
    #[tactic(auto, unfolding(cr_readers::specs::Links::postfix))]
    pub fn postfix(&self, cursor: &mut Cursor<'_>, free: bool) -> Result<Operand, ParseFault>
        requires { Nests self.now.parser.turns self.now.parser.deep (F.pre self.now.parser.inside) (F.post self.now.parser.inside) }
        ensures { Reads (links.postfix self.now.parser.turns (read self.now.parser.turns self.now.parser.deep) self.now.within free (state_of cursor.old)) result (state_of cursor.new) }
    {
        let operand = self.primary(cursor, free)?;
        self.links(cursor, free, operand)
    }
}
