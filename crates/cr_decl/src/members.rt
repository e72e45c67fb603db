//! Members of classes and modules, and lists of declared names.

ghost use Rattle.cr_bodies.specs.Nests.{Nests};
ghost use Rattle.cr_readers.specs.Cursor.{state_of};
ghost use Rattle.cr_readers.specs.Declarations as declarations;
ghost use Rattle.cr_readers.specs.Descent.{read};
ghost use Rattle.cr_readers.specs.Reads.{Reads};
ghost use Rattle.std.specs.Prelude.{◌≡◌, true, false};
ghost use Rattle.cr_decl.specs.Lists as items;
ghost use Rattle.cr_readers.specs.Lists as lists;
ghost use Rattle.cr_readers.specs.Reader as reader;
ghost use Rattle.cr_readers.specs.Reader.{passes};
ghost use Rattle.cr_syntax.specs.declared.look.TokenLook.TheVariants as l;
ghost use Rattle.cr_words.specs.Lists.{gather};

use crate::declarations::Declarations;
use crate::lists::{Declared, Members};
use crate::names::include;
use cr_grammar::{Tree, Wanted};
use cr_readers::{Cursor, ParseFault};
use cr_syntax::TokenLook;
use cr_words::{add, comma, ident, instance_variable, separators};
use sqlite_items::{Boxed, Items};
use std::alloc::Global;

/// Whether one more member begins.
fn begins_member(cursor: &Cursor<'_>, of: Members) -> bool
    ensures { result ≡ passes (items.begins of) (state_of cursor.now).rest }
{
    match cursor.token() {
        Some(token) => match token.kind.look() {
            TokenLook::Def | TokenLook::Include => true,
            TokenLook::InstanceVariable | TokenLook::Getter | TokenLook::Property => {
                matches!(of, Members::Class)
            }
            _ => false,
        },
        None => false,
    }
}

impl<
    F: Fn(Global, usize, usize, Wanted, &mut Cursor<'_>) -> Result<Boxed<Tree>, ParseFault>,
> Declarations<F> {
    /// `@x : T`
    fn declaration(&self, cursor: &mut Cursor<'_>) -> Result<Boxed<Tree>, ParseFault>
        requires { Nests self.now.parser.turns self.now.parser.deep (F.pre self.now.parser.inside) (F.post self.now.parser.inside) }
        ensures { Reads (declarations.declaration self.now.parser.turns (read self.now.parser.turns self.now.parser.deep) (state_of cursor.old)) result (state_of cursor.new) }
    {
        let name = instance_variable(self.parser.alloc, cursor)?;
        cursor.grow(name.at)?;
        let of = self.restriction(cursor)?;
        let tree = Tree::Declaration {
            at: name.at,
            name: name.text,
            of,
        };
        Ok(Boxed::new(self.parser.alloc, tree)?)
    }

    /// What `getter` or `property` names.
    fn acc(&self, cursor: &mut Cursor<'_>) -> Result<Boxed<Tree>, ParseFault>
        requires { Nests self.now.parser.turns self.now.parser.deep (F.pre self.now.parser.inside) (F.post self.now.parser.inside) }
        ensures { Reads (declarations.acc self.now.parser.turns (read self.now.parser.turns self.now.parser.deep) (state_of cursor.old)) result (state_of cursor.new) }
    {
        let name = ident(self.parser.alloc, cursor)?;
        cursor.grow(name.at)?;
        let of = self.maybe_restriction(cursor)?;
        let tree = Tree::Accessor {
            at: name.at,
            name: name.text,
            of,
        };
        Ok(Boxed::new(self.parser.alloc, tree)?)
    }

    /// What is declared in a list.
    fn declared(
        &self,
        cursor: &mut Cursor<'_>,
        declared: Declared,
    ) -> Result<Boxed<Tree>, ParseFault>
        requires { Nests self.now.parser.turns self.now.parser.deep (F.pre self.now.parser.inside) (F.post self.now.parser.inside) }
        ensures { Reads (items.declared self.now.parser.turns (read self.now.parser.turns self.now.parser.deep) declared (state_of cursor.old)) result (state_of cursor.new) }
    {
        match declared {
            Declared::Parameter(instance) => self.param(cursor, instance),
            Declared::Accessor => self.acc(cursor),
        }
    }

    /// What is declared in a list, as a part.
    #[tactic(auto, unfolding(cr_readers::specs::Reader::part, cr_readers::specs::Cursor::entered, cr_readers::specs::Cursor::left_part))]
    fn declared_part(
        &self,
        cursor: &mut Cursor<'_>,
        declared: Declared,
    ) -> Result<Boxed<Tree>, ParseFault>
        requires { Nests self.now.parser.turns self.now.parser.deep (F.pre self.now.parser.inside) (F.post self.now.parser.inside) }
        ensures { Reads (reader.part (items.declared self.now.parser.turns (read self.now.parser.turns self.now.parser.deep) declared) (state_of cursor.old)) result (state_of cursor.new) }
    {
        let height = cursor.enter();
        let tree = self.declared(cursor, declared)?;
        cursor.leave(height);
        Ok(tree)
    }

    /// A comma, and what is declared behind it.
    #[tactic(auto, unfolding(crate::specs::Lists::behind_comma))]
    fn declared_behind(
        &self,
        cursor: &mut Cursor<'_>,
        declared: Declared,
    ) -> Result<Boxed<Tree>, ParseFault>
        requires { Nests self.now.parser.turns self.now.parser.deep (F.pre self.now.parser.inside) (F.post self.now.parser.inside) }
        ensures { Reads (items.behind_comma self.now.parser.turns (read self.now.parser.turns self.now.parser.deep) declared (state_of cursor.old)) result (state_of cursor.new) }
    {
        comma(cursor, self.parser.turns)?;
        self.declared_part(cursor, declared)
    }

    /// What is declared behind what was found.
    #[tactic(auto, using(cr_words::proofs::Loops::gather_turn, cr_words::proofs::Loops::gather_ends, cr_words::proofs::Loops::gather_fails))]
    fn more_declared(
        &self,
        cursor: &mut Cursor<'_>,
        declared: Declared,
        mut found: Items<Tree>,
    ) -> Result<Items<Tree>, ParseFault>
        requires { Nests self.now.parser.turns self.now.parser.deep (F.pre self.now.parser.inside) (F.post self.now.parser.inside) }
        ensures { Reads (gather found (reader.many (reader.seen l.Comma) (items.behind_comma self.now.parser.turns (read self.now.parser.turns self.now.parser.deep) declared) self.now.parser.turns (state_of cursor.old))) result (state_of cursor.new) }
    {
        for _turn in 0..self.parser.turns {
            if !cursor.sees(TokenLook::Comma) {
                return Ok(found);
            }
            found.push(self.declared_behind(cursor, declared)?.into_inner())?;
        }
        Err(ParseFault::NoMemory)
    }

    /// A list of what is declared, with commas.
    #[tactic(auto, unfolding(cr_words::specs::Lists::gather, crate::specs::Lists::behind_comma))]
    pub(crate) fn declared_list(
        &self,
        cursor: &mut Cursor<'_>,
        declared: Declared,
    ) -> Result<Items<Tree>, ParseFault>
        requires { Nests self.now.parser.turns self.now.parser.deep (F.pre self.now.parser.inside) (F.post self.now.parser.inside) }
        ensures { Reads (lists.listed self.now.parser.turns (reader.part (items.declared self.now.parser.turns (read self.now.parser.turns self.now.parser.deep) declared)) (state_of cursor.old)) result (state_of cursor.new) }
    {
        let mut found = Items::new(self.parser.alloc);
        add(
            self.parser.alloc,
            &mut found,
            self.declared_part(cursor, declared)?.into_inner(),
        )?;
        self.more_declared(cursor, declared, found)
    }

    /// The fields that have methods to read them and, of `property`, to set them.
    fn accessors(
        &self,
        cursor: &mut Cursor<'_>,
        look: TokenLook,
        property: bool,
    ) -> Result<Boxed<Tree>, ParseFault>
        requires { Nests self.now.parser.turns self.now.parser.deep (F.pre self.now.parser.inside) (F.post self.now.parser.inside) }
        ensures { Reads (declarations.accessors self.now.parser.turns (read self.now.parser.turns self.now.parser.deep) look property (state_of cursor.old)) result (state_of cursor.new) }
    {
        let at = cursor.expect(look)?;
        cursor.grow(at)?;
        let accessors = self.declared_list(cursor, Declared::Accessor)?;
        let tree = Tree::Accessors {
            at,
            property,
            accessors,
        };
        Ok(Boxed::new(self.parser.alloc, tree)?)
    }

    /// A member of a class that declares fields.
    fn field(&self, cursor: &mut Cursor<'_>) -> Result<Boxed<Tree>, ParseFault>
        requires { Nests self.now.parser.turns self.now.parser.deep (F.pre self.now.parser.inside) (F.post self.now.parser.inside) }
        ensures { Reads (items.field self.now.parser.turns (read self.now.parser.turns self.now.parser.deep) (state_of cursor.old)) result (state_of cursor.new) }
    {
        if cursor.sees(TokenLook::InstanceVariable) {
            return self.declaration(cursor);
        }
        if cursor.sees(TokenLook::Getter) {
            return self.accessors(cursor, TokenLook::Getter, false);
        }
        self.accessors(cursor, TokenLook::Property, true)
    }

    /// A member of a class.
    fn class_member(&self, cursor: &mut Cursor<'_>) -> Result<Boxed<Tree>, ParseFault>
        requires { Nests self.now.parser.turns self.now.parser.deep (F.pre self.now.parser.inside) (F.post self.now.parser.inside) }
        ensures { Reads (declarations.member self.now.parser.turns (read self.now.parser.turns self.now.parser.deep) (state_of cursor.old)) result (state_of cursor.new) }
    {
        if cursor.sees(TokenLook::Def) {
            return self.def(cursor, true);
        }
        if cursor.sees(TokenLook::Include) {
            return include(self.parser.alloc, cursor);
        }
        self.field(cursor)
    }

    /// A member of a module.
    fn module_member(&self, cursor: &mut Cursor<'_>) -> Result<Boxed<Tree>, ParseFault>
        requires { Nests self.now.parser.turns self.now.parser.deep (F.pre self.now.parser.inside) (F.post self.now.parser.inside) }
        ensures { Reads (declarations.module_member self.now.parser.turns (read self.now.parser.turns self.now.parser.deep) (state_of cursor.old)) result (state_of cursor.new) }
    {
        if cursor.sees(TokenLook::Def) {
            return self.def(cursor, true);
        }
        include(self.parser.alloc, cursor)
    }

    /// A member.
    fn member(&self, cursor: &mut Cursor<'_>, of: Members) -> Result<Boxed<Tree>, ParseFault>
        requires { Nests self.now.parser.turns self.now.parser.deep (F.pre self.now.parser.inside) (F.post self.now.parser.inside) }
        ensures { Reads (items.member self.now.parser.turns (read self.now.parser.turns self.now.parser.deep) of (state_of cursor.old)) result (state_of cursor.new) }
    {
        match of {
            Members::Class => self.class_member(cursor),
            Members::Module => self.module_member(cursor),
        }
    }

    /// A member, as a part.
    #[tactic(auto, unfolding(cr_readers::specs::Reader::part, cr_readers::specs::Cursor::entered, cr_readers::specs::Cursor::left_part))]
    fn member_part(&self, cursor: &mut Cursor<'_>, of: Members) -> Result<Boxed<Tree>, ParseFault>
        requires { Nests self.now.parser.turns self.now.parser.deep (F.pre self.now.parser.inside) (F.post self.now.parser.inside) }
        ensures { Reads (reader.part (items.member self.now.parser.turns (read self.now.parser.turns self.now.parser.deep) of) (state_of cursor.old)) result (state_of cursor.new) }
    {
        let height = cursor.enter();
        let tree = self.member(cursor, of)?;
        cursor.leave(height);
        Ok(tree)
    }

    /// The members behind those that were found.
    #[tactic(auto, using(cr_words::proofs::Loops::lines_more, cr_words::proofs::Loops::lines_last, cr_words::proofs::Loops::lines_stop, cr_words::proofs::Loops::lines_fail, cr_words::proofs::Loops::lines_end))]
    fn more_members(
        &self,
        cursor: &mut Cursor<'_>,
        of: Members,
        mut found: Items<Tree>,
    ) -> Result<Items<Tree>, ParseFault>
        requires { Nests self.now.parser.turns self.now.parser.deep (F.pre self.now.parser.inside) (F.post self.now.parser.inside) }
        ensures { Reads (gather found (lists.lines self.now.parser.turns (items.begins of) (reader.part (items.member self.now.parser.turns (read self.now.parser.turns self.now.parser.deep) of)) self.now.parser.turns (state_of cursor.old))) result (state_of cursor.new) }
    {
        for _turn in 0..self.parser.turns {
            if !begins_member(cursor, of) {
                return Ok(found);
            }
            add(
                self.parser.alloc,
                &mut found,
                self.member_part(cursor, of)?.into_inner(),
            )?;
            if !self.parser.behind_line(cursor)? {
                return Ok(found);
            }
        }
        Err(ParseFault::NoMemory)
    }

    /// The members of a class or module.
    #[tactic(auto, using(cr_words::proofs::Loops::gather_none))]
    pub(crate) fn members(
        &self,
        cursor: &mut Cursor<'_>,
        of: Members,
    ) -> Result<Items<Tree>, ParseFault>
        requires { Nests self.now.parser.turns self.now.parser.deep (F.pre self.now.parser.inside) (F.post self.now.parser.inside) }
        ensures { Reads (lists.stmts self.now.parser.turns (items.begins of) (reader.part (items.member self.now.parser.turns (read self.now.parser.turns self.now.parser.deep) of)) (state_of cursor.old)) result (state_of cursor.new) }
    {
        separators(cursor, self.parser.turns)?;
        self.more_members(cursor, of, Items::new(self.parser.alloc))
    }
}
