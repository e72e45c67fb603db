//! Literals: words that are values, numbers, texts, arrays and hashes.

ghost use Rattle.cr_syntax.specs.declared.look.TokenLook.TheVariants as l;
ghost use Rattle.cr_readers.specs.Cursor.{state_of};
ghost use Rattle.cr_readers.specs.Descent.{read};
ghost use Rattle.cr_readers.specs.Primaries as primaries;
ghost use Rattle.cr_readers.specs.Reader as reader;
ghost use Rattle.cr_readers.specs.Reads.{Reads};
ghost use Rattle.cr_bodies.specs.Nests.{Nests};
ghost use Rattle.cr_parse.specs.Literals as literals;
ghost use Rattle.cr_parse.specs.Parts as parts;

use crate::expressions::Expressions;
use cr_bodies::Item;
use cr_grammar::{Tree, Wanted, Word};
use cr_readers::{Cursor, ParseFault};
use cr_syntax::{TokenLook, TokenText};
use cr_words::{add, first_text, last_text, middle_text, number, separators, whole_text};
use sqlite_items::{Boxed, Items};
use std::alloc::Global;

/// The parts of a text with insertions, and the values between them.
#[derive(Drop)]
pub struct Parts {
    texts: Items<TokenText>,
    inserted: Items<Tree>,
}

/// A word that is a node by itself; its place.
pub fn word_node(cursor: &mut Cursor<'_>, look: TokenLook) -> Result<u32, ParseFault>
    ensures { Reads (literals.word_node look (state_of cursor.old)) result (state_of cursor.new) }
{
    let at = cursor.expect(look)?;
    cursor.grow(at)?;
    Ok(at)
}

impl<
    F: Fn(Global, usize, usize, Wanted, &mut Cursor<'_>) -> Result<Boxed<Tree>, ParseFault>,
> Expressions<F> {
    /// A number.
    #[tactic(auto, unfolding(cr_readers::specs::Primaries::number_node))]
    pub fn number_node(
        &self,
        cursor: &mut Cursor<'_>,
        free: bool,
    ) -> Result<Boxed<Tree>, ParseFault>
        ensures { Reads (primaries.number_node self.now.parser.turns (read self.now.parser.turns self.now.parser.deep) self.now.within free (state_of cursor.old)) result (state_of cursor.new) }
    {
        let (at, tree) = number(self.parser.alloc, cursor)?;
        cursor.grow(at)?;
        Ok(tree)
    }

    /// A text without insertion.
    #[tactic(auto, unfolding(cr_readers::specs::Primaries::text))]
    pub fn text(&self, cursor: &mut Cursor<'_>, free: bool) -> Result<Boxed<Tree>, ParseFault>
        ensures { Reads (primaries.text self.now.parser.turns (read self.now.parser.turns self.now.parser.deep) self.now.within free (state_of cursor.old)) result (state_of cursor.new) }
    {
        let text = whole_text(self.parser.alloc, cursor)?;
        cursor.grow(text.at)?;
        let tree = Tree::Text {
            at: text.at,
            text: text.text,
        };
        Ok(Boxed::new(self.parser.alloc, tree)?)
    }

    /// A value between two parts of a text.
    fn inserted(&self, cursor: &mut Cursor<'_>, free: bool) -> Result<Boxed<Tree>, ParseFault>
        requires { Nests self.now.parser.turns self.now.parser.deep (F.pre self.now.parser.inside) (F.post self.now.parser.inside) }
        ensures { Reads (primaries.inserted self.now.parser.turns (read self.now.parser.turns self.now.parser.deep) self.now.within free (state_of cursor.old)) result (state_of cursor.new) }
    {
        self.parser.part(cursor, Wanted::Or(self.within, free))
    }

    /// A part of a text and the value behind it, behind those that were found.
    #[tactic(auto, unfolding(crate::specs::Parts::another))]
    fn another(
        &self,
        cursor: &mut Cursor<'_>,
        free: bool,
        mut found: Parts,
    ) -> Result<Parts, ParseFault>
        requires { Nests self.now.parser.turns self.now.parser.deep (F.pre self.now.parser.inside) (F.post self.now.parser.inside) }
        ensures { Reads (parts.another self.now.parser.turns (read self.now.parser.turns self.now.parser.deep) self.now.within free found (state_of cursor.old)) result (state_of cursor.new) }
    {
        let text = middle_text(self.parser.alloc, cursor)?;
        found.texts.push(text.text)?;
        add(
            self.parser.alloc,
            &mut found.inserted,
            self.inserted(cursor, free)?.into_inner(),
        )?;
        Ok(found)
    }

    /// The parts of a text between its first value and its last part, behind those that were found.
    #[tactic(auto, using(cr_words::proofs::Loops::repeated_turn, cr_words::proofs::Loops::repeated_ends, cr_words::proofs::Loops::repeated_fails))]
    fn parts(
        &self,
        cursor: &mut Cursor<'_>,
        free: bool,
        mut found: Parts,
    ) -> Result<Parts, ParseFault>
        requires { Nests self.now.parser.turns self.now.parser.deep (F.pre self.now.parser.inside) (F.post self.now.parser.inside) }
        ensures { Reads (reader.repeated (reader.seen l.TextMiddle) (parts.another self.now.parser.turns (read self.now.parser.turns self.now.parser.deep) self.now.within free) self.now.parser.turns found (state_of cursor.old)) result (state_of cursor.new) }
    {
        for _turn in 0..self.parser.turns {
            if !cursor.sees(TokenLook::TextMiddle) {
                return Ok(found);
            }
            found = self.another(cursor, free, found)?;
        }
        Err(ParseFault::NoMemory)
    }

    /// What follows the first part of a text.
    #[tactic(auto, unfolding(crate::specs::Parts::insertions_behind))]
    fn insertions_behind(
        &self,
        cursor: &mut Cursor<'_>,
        free: bool,
        first: Word,
    ) -> Result<Boxed<Tree>, ParseFault>
        requires { Nests self.now.parser.turns self.now.parser.deep (F.pre self.now.parser.inside) (F.post self.now.parser.inside) }
        ensures { Reads (parts.insertions_behind self.now.parser.turns (read self.now.parser.turns self.now.parser.deep) self.now.within free first (state_of cursor.old)) result (state_of cursor.new) }
    {
        let mut found = Parts {
            texts: Items::new(self.parser.alloc),
            inserted: Items::new(self.parser.alloc),
        };
        found.texts.push(first.text)?;
        add(
            self.parser.alloc,
            &mut found.inserted,
            self.inserted(cursor, free)?.into_inner(),
        )?;
        let mut found = self.parts(cursor, free, found)?;
        let last = last_text(self.parser.alloc, cursor)?;
        found.texts.push(last.text)?;
        let tree = Tree::Insertions {
            at: first.at,
            parts: found.texts,
            inserted: found.inserted,
        };
        Ok(Boxed::new(self.parser.alloc, tree)?)
    }

    /// A text with insertions.
    #[tactic(auto, using(crate::proofs::Parts::insertions_are))]
    pub fn insertions(&self, cursor: &mut Cursor<'_>, free: bool) -> Result<Boxed<Tree>, ParseFault>
        requires { Nests self.now.parser.turns self.now.parser.deep (F.pre self.now.parser.inside) (F.post self.now.parser.inside) }
        ensures { Reads (primaries.insertions self.now.parser.turns (read self.now.parser.turns self.now.parser.deep) self.now.within free (state_of cursor.old)) result (state_of cursor.new) }
    {
        let first = first_text(self.parser.alloc, cursor)?;
        cursor.grow(first.at)?;
        self.insertions_behind(cursor, free, first)
    }

    /// The type behind `of`, if it comes.
    fn element(
        &self,
        cursor: &mut Cursor<'_>,
        free: bool,
    ) -> Result<Option<Boxed<Tree>>, ParseFault>
        requires { Nests self.now.parser.turns self.now.parser.deep (F.pre self.now.parser.inside) (F.post self.now.parser.inside) }
        ensures { Reads (literals.element self.now.parser.turns (read self.now.parser.turns self.now.parser.deep) self.now.within free (state_of cursor.old)) result (state_of cursor.new) }
    {
        if !cursor.sees(TokenLook::Of) {
            return Ok(None);
        }
        cursor.expect(TokenLook::Of)?;
        Ok(Some(self.parser.part(cursor, Wanted::Written(true))?))
    }

    /// An array.
    #[tactic(auto, unfolding(cr_readers::specs::Primaries::array))]
    pub fn array(&self, cursor: &mut Cursor<'_>, free: bool) -> Result<Boxed<Tree>, ParseFault>
        requires { Nests self.now.parser.turns self.now.parser.deep (F.pre self.now.parser.inside) (F.post self.now.parser.inside) }
        ensures { Reads (primaries.array self.now.parser.turns (read self.now.parser.turns self.now.parser.deep) self.now.within free (state_of cursor.old)) result (state_of cursor.new) }
    {
        let at = cursor.expect(TokenLook::OpenBracket)?;
        cursor.grow(at)?;
        separators(cursor, self.parser.turns)?;
        let elements = self
            .parser
            .maybe_inside(cursor, self.within, TokenLook::CloseBracket)?;
        separators(cursor, self.parser.turns)?;
        cursor.expect(TokenLook::CloseBracket)?;
        let element = self.element(cursor, free)?;
        let tree = Tree::Array {
            at,
            elements,
            element,
        };
        Ok(Boxed::new(self.parser.alloc, tree)?)
    }

    /// The entries of a hash, unless it closes at once.
    fn entries(&self, cursor: &mut Cursor<'_>, free: bool) -> Result<Items<Tree>, ParseFault>
        requires { Nests self.now.parser.turns self.now.parser.deep (F.pre self.now.parser.inside) (F.post self.now.parser.inside) }
        ensures { Reads (literals.entries self.now.parser.turns (read self.now.parser.turns self.now.parser.deep) self.now.within free (state_of cursor.old)) result (state_of cursor.new) }
    {
        if cursor.sees(TokenLook::CloseBrace) {
            return Ok(Items::new(self.parser.alloc));
        }
        self.parser.listed(cursor, Item::Entry(self.within, free))
    }

    /// The types behind `of`, if they come.
    fn entry_types(
        &self,
        cursor: &mut Cursor<'_>,
        free: bool,
    ) -> Result<Option<Boxed<Tree>>, ParseFault>
        requires { Nests self.now.parser.turns self.now.parser.deep (F.pre self.now.parser.inside) (F.post self.now.parser.inside) }
        ensures { Reads (literals.entry self.now.parser.turns (read self.now.parser.turns self.now.parser.deep) self.now.within free (state_of cursor.old)) result (state_of cursor.new) }
    {
        if !cursor.sees(TokenLook::Of) {
            return Ok(None);
        }
        cursor.expect(TokenLook::Of)?;
        let types = self
            .parser
            .entry(cursor, Wanted::Written(true), self.within, free)?;
        Ok(Some(types))
    }

    /// A hash.
    #[tactic(auto, unfolding(cr_readers::specs::Primaries::hash))]
    pub fn hash(&self, cursor: &mut Cursor<'_>, free: bool) -> Result<Boxed<Tree>, ParseFault>
        requires { Nests self.now.parser.turns self.now.parser.deep (F.pre self.now.parser.inside) (F.post self.now.parser.inside) }
        ensures { Reads (primaries.hash self.now.parser.turns (read self.now.parser.turns self.now.parser.deep) self.now.within free (state_of cursor.old)) result (state_of cursor.new) }
    {
        let at = cursor.expect(TokenLook::OpenBrace)?;
        cursor.grow(at)?;
        separators(cursor, self.parser.turns)?;
        let entries = self.entries(cursor, free)?;
        cursor.expect(TokenLook::CloseBrace)?;
        let entry = self.entry_types(cursor, free)?;
        let tree = Tree::Hash { at, entries, entry };
        Ok(Boxed::new(self.parser.alloc, tree)?)
    }
}
