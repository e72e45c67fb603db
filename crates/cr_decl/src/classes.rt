//! Classes and modules.

ghost use Rattle.cr_bodies.specs.Nests.{Nests};
ghost use Rattle.cr_readers.specs.Cursor.{state_of};
ghost use Rattle.cr_readers.specs.Declarations as declarations;
ghost use Rattle.cr_readers.specs.Descent.{read};
ghost use Rattle.cr_readers.specs.Reads.{Reads};
ghost use Rattle.std.specs.Prelude.{◌≡◌};
ghost use Rattle.cr_decl.specs.Classes as classes;
ghost use Rattle.cr_decl.specs.Names as names;
ghost use Rattle.cr_readers.specs.Lists as lists;
ghost use Rattle.cr_readers.specs.Reader as reader;
ghost use Rattle.cr_syntax.specs.declared.look.TokenLook.TheVariants as l;
ghost use Rattle.cr_words.specs.Lists.{gather};

use crate::declarations::Declarations;
use crate::lists::Members;
use crate::names::constant_name;
use cr_grammar::{Tree, Wanted};
use cr_readers::{Cursor, ParseFault};
use cr_syntax::{TokenLook, TokenText};
use cr_words::{comma, constant, separators};
use sqlite_items::{Boxed, Items};
use std::alloc::Global;

/// A comma, and the name of a class behind it.
fn name_behind(
    alloc: Global,
    cursor: &mut Cursor<'_>,
    turns: usize,
) -> Result<TokenText, ParseFault>
    ensures { Reads (names.name_behind turns (state_of cursor.old)) result (state_of cursor.new) }
{
    comma(cursor, turns)?;
    constant_name(alloc, cursor)
}

/// The names behind those that were found.
#[tactic(auto, using(cr_words::proofs::Loops::gather_turn, cr_words::proofs::Loops::gather_ends, cr_words::proofs::Loops::gather_fails))]
fn more_names(
    alloc: Global,
    cursor: &mut Cursor<'_>,
    turns: usize,
    mut found: Items<TokenText>,
) -> Result<Items<TokenText>, ParseFault>
    ensures { Reads (gather found (reader.many (reader.seen l.Comma) (names.name_behind turns) turns (state_of cursor.old))) result (state_of cursor.new) }
{
    for _turn in 0..turns {
        if !cursor.sees(TokenLook::Comma) {
            return Ok(found);
        }
        found.push(name_behind(alloc, cursor, turns)?)?;
    }
    Err(ParseFault::NoMemory)
}

/// Names of classes, with commas.
#[tactic(auto, unfolding(cr_words::specs::Lists::gather))]
fn constant_names(
    alloc: Global,
    cursor: &mut Cursor<'_>,
    turns: usize,
) -> Result<Items<TokenText>, ParseFault>
    ensures { Reads (lists.listed turns declarations.constant_name (state_of cursor.old)) result (state_of cursor.new) }
{
    let mut found = Items::new(alloc);
    found.push(constant_name(alloc, cursor)?)?;
    more_names(alloc, cursor, turns, found)
}

/// The names of type parameters in tight parentheses, or none.
fn type_parameters(
    alloc: Global,
    cursor: &mut Cursor<'_>,
    turns: usize,
) -> Result<Items<TokenText>, ParseFault>
    ensures { Reads (names.type_parameters turns (state_of cursor.old)) result (state_of cursor.new) }
{
    if !cursor.sees_tight(TokenLook::OpenParenthesis) {
        return Ok(Items::new(alloc));
    }
    cursor.expect(TokenLook::OpenParenthesis)?;
    separators(cursor, turns)?;
    let found = constant_names(alloc, cursor, turns)?;
    separators(cursor, turns)?;
    cursor.expect(TokenLook::CloseParenthesis)?;
    Ok(found)
}

/// `< A`, if it comes.
fn superclass(alloc: Global, cursor: &mut Cursor<'_>) -> Result<Option<TokenText>, ParseFault>
    ensures { Reads (names.superclass (state_of cursor.old)) result (state_of cursor.new) }
{
    if !cursor.sees(TokenLook::Less) {
        return Ok(None);
    }
    cursor.expect(TokenLook::Less)?;
    let name = constant_name(alloc, cursor)?;
    Ok(Some(name))
}

impl<
    F: Fn(Global, usize, usize, Wanted, &mut Cursor<'_>) -> Result<Boxed<Tree>, ParseFault>,
> Declarations<F> {
    /// A class behind its name.
    fn class_behind(
        &self,
        cursor: &mut Cursor<'_>,
        at: u32,
        name: TokenText,
    ) -> Result<Boxed<Tree>, ParseFault>
        requires { Nests self.now.parser.turns self.now.parser.deep (F.pre self.now.parser.inside) (F.post self.now.parser.inside) }
        ensures { Reads (classes.class_behind self.now.parser.turns (read self.now.parser.turns self.now.parser.deep) at name (state_of cursor.old)) result (state_of cursor.new) }
    {
        let parameters = type_parameters(self.parser.alloc, cursor, self.parser.turns)?;
        let superclass = superclass(self.parser.alloc, cursor)?;
        cursor.expect(TokenLook::Newline)?;
        let members = self.members(cursor, Members::Class)?;
        cursor.expect(TokenLook::KeywordEnd)?;
        let tree = Tree::Class {
            at,
            name,
            parameters,
            superclass,
            members,
        };
        Ok(Boxed::new(self.parser.alloc, tree)?)
    }

    /// `class`
    pub(crate) fn class(&self, cursor: &mut Cursor<'_>) -> Result<Boxed<Tree>, ParseFault>
        requires { Nests self.now.parser.turns self.now.parser.deep (F.pre self.now.parser.inside) (F.post self.now.parser.inside) }
        ensures { Reads (declarations.class self.now.parser.turns (read self.now.parser.turns self.now.parser.deep) (state_of cursor.old)) result (state_of cursor.new) }
    {
        let at = cursor.expect(TokenLook::Class)?;
        cursor.grow(at)?;
        let name = constant(self.parser.alloc, cursor)?;
        let tree = self.class_behind(cursor, at, name.text)?;
        Ok(tree)
    }

    /// `module`
    pub(crate) fn module(&self, cursor: &mut Cursor<'_>) -> Result<Boxed<Tree>, ParseFault>
        requires { Nests self.now.parser.turns self.now.parser.deep (F.pre self.now.parser.inside) (F.post self.now.parser.inside) }
        ensures { Reads (declarations.module_of self.now.parser.turns (read self.now.parser.turns self.now.parser.deep) (state_of cursor.old)) result (state_of cursor.new) }
    {
        let at = cursor.expect(TokenLook::Module)?;
        cursor.grow(at)?;
        let name = constant_name(self.parser.alloc, cursor)?;
        cursor.expect(TokenLook::Newline)?;
        let members = self.members(cursor, Members::Module)?;
        cursor.expect(TokenLook::KeywordEnd)?;
        let tree = Tree::Module { at, name, members };
        Ok(Boxed::new(self.parser.alloc, tree)?)
    }
}
