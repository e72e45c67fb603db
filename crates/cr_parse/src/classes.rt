//! What begins with the name of a class: `A.new` and `Fiber.yield`.

ghost use Rattle.std.specs.Prelude.{◌≡◌, ◌&&◌, ◌∷◌, [], is_some};
ghost use Rattle.cr_grammar.specs.Expressions.{atom_tree};
ghost use Rattle.cr_grammar.specs.Operators as o;
ghost use Rattle.cr_readers.specs.Cursor.{state_of};
ghost use Rattle.cr_readers.specs.Descent.{read};
ghost use Rattle.cr_readers.specs.Primaries as primaries;
ghost use Rattle.cr_readers.specs.Reader as reader;
ghost use Rattle.cr_readers.specs.Reads.{Reads};
ghost use Rattle.cr_bodies.specs.Nests.{Nests};
ghost use Rattle.cr_words.specs.Gives.{Gives};

use crate::expressions::Expressions;
use cr_grammar::{Atom, Tree, Wanted};
use cr_readers::{Cursor, ParseFault};
use cr_syntax::{TokenLook, TokenText};
use cr_words::exactly_ident;
use sqlite_items::{Boxed, Items};
use std::alloc::Global;

/// Whether a path is `Fiber`.
#[tactic(auto, using(crate::proofs::Paths::other_length))]
fn is_fiber_path(names: &[TokenText]) -> bool
    ensures { result ≡ primaries.is_path names.now (o.fiber_name ∷ []) }
{
    match names {
        [name] => name.as_str() == "Fiber",
        _ => false,
    }
}

/// Whether three names are those of `Fiber::ExecutionContext::Isolated`.
fn is_isolated(first: &str, second: &str, third: &str) -> bool
    ensures { result ≡ primaries.is_path (first.now ∷ second.now ∷ third.now ∷ []) o.isolated_path }
{
    first == "Fiber" && (second == "ExecutionContext" && third == "Isolated")
}

/// Whether a path is `Fiber::ExecutionContext::Isolated`.
#[tactic(auto, using(crate::proofs::Paths::other_length, crate::proofs::Paths::three))]
fn is_isolated_path(names: &[TokenText]) -> bool
    ensures { result ≡ primaries.is_path names.now o.isolated_path }
{
    match names {
        [first, second, third] => is_isolated(first.as_str(), second.as_str(), third.as_str()),
        _ => false,
    }
}

/// Whether a class is `Fiber` alone.
fn is_fiber(class: &Atom) -> bool
    ensures { result ≡ primaries.is_path class.now.path.names (o.fiber_name ∷ []) && primaries.is_bare class.now.arguments class.now.question }
{
    is_fiber_path(class.path.names.as_slice())
        && class.arguments.is_empty()
        && class.question.is_none()
}

/// No arguments where no parentheses stand.
fn listed_of(alloc: Global, arguments: Option<Items<Tree>>) -> Items<Tree>
    ensures { result ≡ primaries.listed_of arguments }
{
    match arguments {
        Some(arguments) => arguments,
        None => Items::new(alloc),
    }
}

/// The tree of `A.new`.
fn new_tree(
    alloc: Global,
    at: u32,
    class: Atom,
    arguments: Items<Tree>,
    block: Option<Boxed<Tree>>,
) -> Result<Boxed<Tree>, ParseFault>
    ensures { Gives (Tree.New at (atom_tree class) (is_some class.question) arguments block) result }
{
    let question = class.question.is_some();
    let class = Tree::Atom {
        at: class.path.at,
        path: class.path.names,
        arguments: class.arguments,
    };
    let class = Boxed::new(alloc, class)?;
    let tree = Tree::New {
        at,
        class,
        question,
        arguments,
        block,
    };
    Ok(Boxed::new(alloc, tree)?)
}

impl<
    F: Fn(Global, usize, usize, Wanted, &mut Cursor<'_>) -> Result<Boxed<Tree>, ParseFault>,
> Expressions<F> {
    /// The block of `Fiber::ExecutionContext::Isolated.new`; no other class has one.
    fn new_block(
        &self,
        cursor: &mut Cursor<'_>,
        free: bool,
        isolated: bool,
    ) -> Result<Option<Boxed<Tree>>, ParseFault>
        requires { Nests self.now.parser.turns self.now.parser.deep (F.pre self.now.parser.inside) (F.post self.now.parser.inside) }
        ensures { Reads (primaries.new_block self.now.parser.turns (read self.now.parser.turns self.now.parser.deep) self.now.within free isolated (state_of cursor.old)) result (state_of cursor.new) }
    {
        if !isolated {
            return Ok(None);
        }
        let body = self.parser.plain(cursor, self.within, free)?;
        let block = Tree::Block {
            parameters: Items::new(self.parser.alloc),
            body,
        };
        Ok(Some(Boxed::new(self.parser.alloc, block)?))
    }

    /// `new`, its arguments and its block, behind a class and its `.`.
    #[tactic(auto, unfolding(cr_readers::specs::Primaries::made))]
    fn made(
        &self,
        cursor: &mut Cursor<'_>,
        free: bool,
        class: Atom,
    ) -> Result<Boxed<Tree>, ParseFault>
        requires { Nests self.now.parser.turns self.now.parser.deep (F.pre self.now.parser.inside) (F.post self.now.parser.inside) }
        ensures { Reads (primaries.made self.now.parser.turns (read self.now.parser.turns self.now.parser.deep) self.now.within free class (state_of cursor.old)) result (state_of cursor.new) }
    {
        let isolated = is_isolated_path(class.path.names.as_slice());
        let at = exactly_ident(cursor, "new")?;
        cursor.wrap(at)?;
        let arguments = self.parser.arguments(cursor, self.within)?;
        let block = self.new_block(cursor, free, isolated)?;
        let arguments = listed_of(self.parser.alloc, arguments);
        new_tree(self.parser.alloc, at, class, arguments, block)
    }

    /// `yield` behind `Fiber.`; no other class has it.
    #[tactic(auto, unfolding(cr_readers::specs::Primaries::pause))]
    fn pause(
        &self,
        cursor: &mut Cursor<'_>,
        free: bool,
        class: Atom,
    ) -> Result<Boxed<Tree>, ParseFault>
        ensures { Reads (reader.allow (primaries.is_fiber self.now.parser.turns (read self.now.parser.turns self.now.parser.deep) self.now.within free class) (primaries.pause self.now.parser.turns (read self.now.parser.turns self.now.parser.deep) self.now.within free class) (state_of cursor.old)) result (state_of cursor.new) }
    {
        if !is_fiber(&class) {
            return Err(cursor.refuse());
        }
        cursor.expect(TokenLook::Yield)?;
        Ok(Boxed::new(self.parser.alloc, Tree::Pause { at: class.path.at })?)
    }

    /// What stands behind a class and its `.`.
    fn made_by(
        &self,
        cursor: &mut Cursor<'_>,
        free: bool,
        class: Atom,
    ) -> Result<Boxed<Tree>, ParseFault>
        requires { Nests self.now.parser.turns self.now.parser.deep (F.pre self.now.parser.inside) (F.post self.now.parser.inside) }
        ensures { Reads (reader.by_look (primaries.made_by self.now.parser.turns (read self.now.parser.turns self.now.parser.deep) self.now.within free class) (state_of cursor.old)) result (state_of cursor.new) }
    {
        match cursor.look() {
            TokenLook::Ident => self.made(cursor, free, class),
            TokenLook::Yield => self.pause(cursor, free, class),
            _ => Err(cursor.refuse()),
        }
    }

    /// `A.new` and `Fiber.yield`.
    #[tactic(auto, unfolding(cr_readers::specs::Primaries::of_class))]
    pub fn of_class(&self, cursor: &mut Cursor<'_>, free: bool) -> Result<Boxed<Tree>, ParseFault>
        requires { Nests self.now.parser.turns self.now.parser.deep (F.pre self.now.parser.inside) (F.post self.now.parser.inside) }
        ensures { Reads (primaries.of_class self.now.parser.turns (read self.now.parser.turns self.now.parser.deep) self.now.within free (state_of cursor.old)) result (state_of cursor.new) }
    {
        let class = self.parser.atom(cursor, true)?;
        cursor.expect(TokenLook::Dot)?;
        self.made_by(cursor, free, class)
    }
}
