//! Types.

ghost use Rattle.std.specs.Prelude.{◌++◌, true};
ghost use Rattle.cr_bodies.specs.Nests.{Nests};
ghost use Rattle.cr_bodies.specs.Atoms as atoms;
ghost use Rattle.cr_bodies.specs.Atoms.{IsAdded, atom_trees};
ghost use Rattle.cr_syntax.specs.declared.look.TokenLook.TheVariants as l;
ghost use Rattle.cr_words.specs.Lists.{gather_each};
ghost use Rattle.cr_readers.specs.Lists.{optional};
ghost use Rattle.cr_readers.specs.Reader.{beside, expect, many, seen, tight_seen};
ghost use Rattle.cr_readers.specs.Types as types;
ghost use Rattle.cr_readers.specs.Cursor.{state_of};
ghost use Rattle.cr_readers.specs.Descent.{read};
ghost use Rattle.cr_readers.specs.Reads.{Reads};

use crate::item::Item;
use crate::parser::Parser;
use cr_grammar::{Atom, Path, Tree, Wanted, Word};
use cr_readers::{Cursor, ParseFault};
use cr_syntax::{TokenLook, TokenText};
use cr_words::{add, constant, separators, spelled};
use sqlite_items::{Boxed, Items};
use std::alloc::Global;

/// `::` and a name.
#[tactic(auto, unfolding(crate::specs::Atoms::behind_colons))]
fn name_behind(alloc: Global, cursor: &mut Cursor<'_>) -> Result<Word, ParseFault>
    ensures { Reads (atoms.behind_colons (state_of cursor.old)) result (state_of cursor.new) }
{
    cursor.expect(TokenLook::ColonColon)?;
    constant(alloc, cursor)
}

/// The names of a path, behind those that were found.
#[tactic(auto, using(crate::proofs::Atoms::names_turn, cr_words::proofs::Loops::each_ends, cr_words::proofs::Loops::each_fails))]
fn names(
    alloc: Global,
    cursor: &mut Cursor<'_>,
    turns: usize,
    mut found: Items<TokenText>,
) -> Result<Items<TokenText>, ParseFault>
    ensures { Reads (gather_each atoms.name_of found (many (seen l.ColonColon) atoms.behind_colons turns (state_of cursor.old))) result (state_of cursor.new) }
{
    for _turn in 0..turns {
        if !cursor.sees(TokenLook::ColonColon) {
            return Ok(found);
        }
        found.push(name_behind(alloc, cursor)?.text)?;
    }
    Err(ParseFault::NoMemory)
}

/// A path behind its first name.
#[tactic(auto, using(crate::proofs::Atoms::path_found, crate::proofs::Atoms::path_fails))]
fn path_behind(
    alloc: Global,
    cursor: &mut Cursor<'_>,
    turns: usize,
    first: Word,
) -> Result<Path, ParseFault>
    ensures { Reads (atoms.path_behind turns first (state_of cursor.old)) result (state_of cursor.new) }
{
    let mut found = Items::new(alloc);
    add(alloc, &mut found, first.text)?;
    let names = names(alloc, cursor, turns, found)?;
    Ok(Path {
        at: first.at,
        names,
    })
}

/// A path.
#[tactic(auto, unfolding(crate::specs::Atoms::behind_colons, crate::specs::Atoms::path_behind))]
fn path(alloc: Global, cursor: &mut Cursor<'_>, turns: usize) -> Result<Path, ParseFault>
    ensures { Reads (types.path turns (read turns 0) (state_of cursor.old)) result (state_of cursor.new) }
{
    let first = constant(alloc, cursor)?;
    cursor.grow(first.at)?;
    path_behind(alloc, cursor, turns, first)
}

/// The `?` behind an atom.
fn question(cursor: &mut Cursor<'_>) -> Result<Option<u32>, ParseFault>
    ensures { Reads (optional (tight_seen l.Question) (expect l.Question) (state_of cursor.old)) result (state_of cursor.new) }
{
    if !cursor.sees_tight(TokenLook::Question) {
        return Ok(None);
    }
    Ok(Some(cursor.expect(TokenLook::Question)?))
}

/// The node of the `?` in a type.
#[tactic(auto, unfolding(cr_readers::specs::Reader::beside, cr_readers::specs::Cursor::left_beside))]
fn question_node(cursor: &mut Cursor<'_>, question: Option<u32>) -> Result<(), ParseFault>
    ensures { Reads (types.question_node 0 (read 0 0) question (state_of cursor.old)) result (state_of cursor.new) }
{
    match question {
        None => Ok(()),
        Some(at) => {
            let height = cursor.height;
            cursor.grow(at)?;
            cursor.leave_beside(height);
            Ok(())
        }
    }
}

/// Puts the trees that an atom of a type stands for at the end.
#[tactic(auto, unfolding(crate::specs::Atoms::atom_trees))]
fn add_atoms(alloc: Global, trees: &mut Items<Tree>, atom: Atom) -> Result<(), ParseFault>
    ensures { IsAdded result trees.old (atom_trees atom) trees.new }
{
    let Atom {
        path: Path { at, names },
        arguments,
        question,
    } = atom;
    let tree = Tree::Atom {
        at,
        path: names,
        arguments,
    };
    add(alloc, trees, tree)?;
    if let Some(at) = question {
        let mut path = Items::new(alloc);
        add(alloc, &mut path, spelled(alloc, "Nil")?)?;
        trees.push(Tree::Atom {
            at,
            path,
            arguments: Items::new(alloc),
        })?;
    }
    Ok(())
}

impl<
    F: Fn(Global, usize, usize, Wanted, &mut Cursor<'_>) -> Result<Boxed<Tree>, ParseFault>,
> Parser<F> {
    /// Types in parentheses.
    fn types_enclosed(&self, cursor: &mut Cursor<'_>) -> Result<Items<Tree>, ParseFault>
        requires { Nests self.now.turns self.now.deep (F.pre self.now.inside) (F.post self.now.inside) }
        ensures { Reads (atoms.types_enclosed self.now.turns (read self.now.turns self.now.deep) (state_of cursor.old)) result (state_of cursor.new) }
    {
        cursor.expect(TokenLook::OpenParenthesis)?;
        separators(cursor, self.turns)?;
        let found = self.listed(cursor, Item::Part(Wanted::Written(true)))?;
        separators(cursor, self.turns)?;
        cursor.expect(TokenLook::CloseParenthesis)?;
        Ok(found)
    }

    /// Type arguments, where these may stand and if they come.
    fn type_arguments(
        &self,
        cursor: &mut Cursor<'_>,
        with_arguments: bool,
    ) -> Result<Items<Tree>, ParseFault>
        requires { Nests self.now.turns self.now.deep (F.pre self.now.inside) (F.post self.now.inside) }
        ensures { Reads (types.type_arguments self.now.turns (read self.now.turns self.now.deep) with_arguments (state_of cursor.old)) result (state_of cursor.new) }
    {
        if with_arguments && cursor.sees_tight(TokenLook::OpenParenthesis) {
            return self.types_enclosed(cursor);
        }
        Ok(Items::new(self.alloc))
    }

    /// An atom: a path with its type arguments, where these may stand, and its `?`.
    pub fn atom(&self, cursor: &mut Cursor<'_>, with_arguments: bool) -> Result<Atom, ParseFault>
        requires { Nests self.now.turns self.now.deep (F.pre self.now.inside) (F.post self.now.inside) }
        ensures { Reads (types.atom self.now.turns (read self.now.turns self.now.deep) with_arguments (state_of cursor.old)) result (state_of cursor.new) }
    {
        let path = path(self.alloc, cursor, self.turns)?;
        let arguments = self.type_arguments(cursor, with_arguments)?;
        let question = question(cursor)?;
        Ok(Atom {
            path,
            arguments,
            question,
        })
    }

    /// An atom of a type, with the node of its `?`.
    #[tactic(auto, unfolding(crate::specs::Atoms::type_atom))]
    fn type_atom(&self, cursor: &mut Cursor<'_>, with_arguments: bool) -> Result<Atom, ParseFault>
        requires { Nests self.now.turns self.now.deep (F.pre self.now.inside) (F.post self.now.inside) }
        ensures { Reads (atoms.type_atom self.now.turns (read self.now.turns self.now.deep) with_arguments (state_of cursor.old)) result (state_of cursor.new) }
    {
        let atom = self.atom(cursor, with_arguments)?;
        question_node(cursor, atom.question)?;
        Ok(atom)
    }

    /// An atom of a type, beside what was read last.
    #[tactic(auto, unfolding(cr_readers::specs::Reader::beside, cr_readers::specs::Cursor::left_beside))]
    fn atom_beside(&self, cursor: &mut Cursor<'_>, with_arguments: bool) -> Result<Atom, ParseFault>
        requires { Nests self.now.turns self.now.deep (F.pre self.now.inside) (F.post self.now.inside) }
        ensures { Reads (beside (atoms.type_atom self.now.turns (read self.now.turns self.now.deep) with_arguments) (state_of cursor.old)) result (state_of cursor.new) }
    {
        let height = cursor.height;
        let atom = self.type_atom(cursor, with_arguments)?;
        cursor.leave_beside(height);
        Ok(atom)
    }

    /// `|` and an atom.
    #[tactic(auto, unfolding(crate::specs::Atoms::behind_pipe))]
    fn atom_behind(&self, cursor: &mut Cursor<'_>, with_arguments: bool) -> Result<Atom, ParseFault>
        requires { Nests self.now.turns self.now.deep (F.pre self.now.inside) (F.post self.now.inside) }
        ensures { Reads (atoms.behind_pipe self.now.turns (read self.now.turns self.now.deep) with_arguments (state_of cursor.old)) result (state_of cursor.new) }
    {
        cursor.expect(TokenLook::Pipe)?;
        self.atom_beside(cursor, with_arguments)
    }

    /// The trees of the atoms of a type, behind those that were found.
    #[tactic(auto, using(cr_words::proofs::Loops::each_turn, cr_words::proofs::Loops::each_ends, cr_words::proofs::Loops::each_fails))]
    fn more_atoms(
        &self,
        cursor: &mut Cursor<'_>,
        with_arguments: bool,
        mut found: Items<Tree>,
    ) -> Result<Items<Tree>, ParseFault>
        requires { Nests self.now.turns self.now.deep (F.pre self.now.inside) (F.post self.now.inside) }
        ensures { Reads (gather_each atom_trees found (many (seen l.Pipe) (atoms.behind_pipe self.now.turns (read self.now.turns self.now.deep) with_arguments) self.now.turns (state_of cursor.old))) result (state_of cursor.new) }
    {
        for _turn in 0..self.turns {
            if !cursor.sees(TokenLook::Pipe) {
                return Ok(found);
            }
            let atom = self.atom_behind(cursor, with_arguments)?;
            add_atoms(self.alloc, &mut found, atom)?;
        }
        Err(ParseFault::NoMemory)
    }

    /// A type behind its first atom.
    #[tactic(auto, using(crate::proofs::Atoms::type_found, crate::proofs::Atoms::type_fails))]
    fn type_behind(
        &self,
        cursor: &mut Cursor<'_>,
        with_arguments: bool,
        first: Atom,
    ) -> Result<Boxed<Tree>, ParseFault>
        requires { Nests self.now.turns self.now.deep (F.pre self.now.inside) (F.post self.now.inside) }
        ensures { Reads (atoms.type_behind self.now.turns (read self.now.turns self.now.deep) with_arguments first (state_of cursor.old)) result (state_of cursor.new) }
    {
        let mut found = Items::new(self.alloc);
        add_atoms(self.alloc, &mut found, first)?;
        let atoms = self.more_atoms(cursor, with_arguments, found)?;
        let tree = Tree::Union { atoms };
        Ok(Boxed::new(self.alloc, tree)?)
    }

    /// A type.
    #[tactic(auto, unfolding(crate::specs::Atoms::type_atom, crate::specs::Atoms::behind_pipe, crate::specs::Atoms::type_behind))]
    pub fn written(
        &self,
        cursor: &mut Cursor<'_>,
        with_arguments: bool,
    ) -> Result<Boxed<Tree>, ParseFault>
        requires { Nests self.now.turns self.now.deep (F.pre self.now.inside) (F.post self.now.inside) }
        ensures { Reads (types.written self.now.turns (read self.now.turns self.now.deep) with_arguments (state_of cursor.old)) result (state_of cursor.new) }
    {
        let first = self.type_atom(cursor, with_arguments)?;
        self.type_behind(cursor, with_arguments, first)
    }
}
