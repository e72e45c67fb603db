//! `if`, `while`, `case` and `select`.

ghost use Rattle.std.specs.Prelude.{◌≡◌, true};
ghost use Rattle.cr_bodies.specs.Nests.{Nests, Nestable};
ghost use Rattle.cr_bodies.specs.Clauses as clauses;
ghost use Rattle.cr_grammar.specs.Wanted as wanted;
ghost use Rattle.cr_words.specs.Lists.{gather};
ghost use Rattle.cr_readers.specs.Bodies as bodies;
ghost use Rattle.cr_readers.specs.Compounds as compounds;
ghost use Rattle.cr_readers.specs.Cursor.{state_of};
ghost use Rattle.cr_readers.specs.Descent.{read};
ghost use Rattle.cr_readers.specs.Reader.{many, part, seen};
ghost use Rattle.cr_readers.specs.Reads.{Reads};

use crate::item::{Clause, Item};
use crate::parser::Parser;
use cr_grammar::{Tree, Wanted, Within};
use cr_readers::{Cursor, ParseFault};
use cr_syntax::TokenLook;
use cr_words::{add, separators};
use sqlite_items::{Boxed, Items};
use std::alloc::Global;

fn in_loop(within: Within) -> Within
    ensures { result ≡ wanted.in_loop within }
{
    Within {
        in_loop: true,
        ..within
    }
}

/// The word that a clause begins with.
fn first_word(clause: Clause) -> TokenLook
    ensures { result ≡ clauses.first_word clause }
{
    match clause {
        Clause::Elsif(_) => TokenLook::Elsif,
        Clause::In(_) => TokenLook::In,
        Clause::When(_, _) => TokenLook::When,
    }
}

impl<
    F: Fn(Global, usize, usize, Wanted, &mut Cursor<'_>) -> Result<Boxed<Tree>, ParseFault>,
> Parser<F> {
    /// A separator or `then`, with its place.
    pub fn then(&self, cursor: &mut Cursor<'_>) -> Result<u32, ParseFault>
        requires { Nests self.now.turns self.now.deep (F.pre self.now.inside) (F.post self.now.inside) }
        ensures { Reads (bodies.then self.now.turns (read self.now.turns self.now.deep) (state_of cursor.old)) result (state_of cursor.new) }
    {
        if cursor.sees(TokenLook::Newline) {
            return cursor.expect(TokenLook::Newline);
        }
        cursor.expect(TokenLook::Then)
    }

    /// The statements behind `else`, if it comes.
    pub fn otherwise(
        &self,
        cursor: &mut Cursor<'_>,
        within: Within,
    ) -> Result<Option<Items<Tree>>, ParseFault>
        requires { Nests self.now.turns self.now.deep (F.pre self.now.inside) (F.post self.now.inside) }
        ensures { Reads (bodies.otherwise self.now.turns (read self.now.turns self.now.deep) within (state_of cursor.old)) result (state_of cursor.new) }
    {
        if !cursor.sees(TokenLook::Else) {
            return Ok(None);
        }
        cursor.expect(TokenLook::Else)?;
        Ok(Some(self.body(cursor, within)?))
    }

    /// `elsif`, its condition and its statements.
    fn elsif(&self, cursor: &mut Cursor<'_>, within: Within) -> Result<Boxed<Tree>, ParseFault>
        requires { Nests self.now.turns self.now.deep (F.pre self.now.inside) (F.post self.now.inside) }
        ensures { Reads (compounds.elsif self.now.turns (read self.now.turns self.now.deep) within true (state_of cursor.old)) result (state_of cursor.new) }
    {
        let at = cursor.expect(TokenLook::Elsif)?;
        let condition = self.part(cursor, Wanted::Simple(within))?;
        self.then(cursor)?;
        let body = self.body(cursor, within)?;
        let tree = Tree::Branch {
            at,
            condition,
            body,
        };
        Ok(Boxed::new(self.alloc, tree)?)
    }

    /// `in`, its types and its statements.
    fn in_clause(&self, cursor: &mut Cursor<'_>, within: Within) -> Result<Boxed<Tree>, ParseFault>
        requires { Nests self.now.turns self.now.deep (F.pre self.now.inside) (F.post self.now.inside) }
        ensures { Reads (compounds.in_clause self.now.turns (read self.now.turns self.now.deep) within true (state_of cursor.old)) result (state_of cursor.new) }
    {
        let at = cursor.expect(TokenLook::In)?;
        let types = self.listed(cursor, Item::Part(Wanted::Written(false)))?;
        self.then(cursor)?;
        let body = self.body(cursor, within)?;
        let tree = Tree::In { at, types, body };
        Ok(Boxed::new(self.alloc, tree)?)
    }

    /// One clause.
    #[tactic(auto, unfolding(crate::specs::Clauses::clause))]
    fn clause(&self, cursor: &mut Cursor<'_>, clause: Clause) -> Result<Boxed<Tree>, ParseFault>
        requires { Nests self.now.turns self.now.deep (F.pre self.now.inside) (F.post self.now.inside) }
        ensures { Reads (clauses.clause self.now.turns (read self.now.turns self.now.deep) clause (state_of cursor.old)) result (state_of cursor.new) }
    {
        match clause {
            Clause::Elsif(within) => self.elsif(cursor, within),
            Clause::In(within) => self.in_clause(cursor, within),
            Clause::When(within, free) => self.read(cursor, Wanted::When(within, free)),
        }
    }

    /// The clauses of one kind, behind those that were found.
    #[tactic(auto, using(cr_words::proofs::Loops::gather_turn, cr_words::proofs::Loops::gather_ends, cr_words::proofs::Loops::gather_fails))]
    fn more_clauses(
        &self,
        cursor: &mut Cursor<'_>,
        clause: Clause,
        mut found: Items<Tree>,
    ) -> Result<Items<Tree>, ParseFault>
        requires { Nests self.now.turns self.now.deep (F.pre self.now.inside) (F.post self.now.inside) }
        ensures { Reads (gather found (many (seen (clauses.first_word clause)) (clauses.clause self.now.turns (read self.now.turns self.now.deep) clause) self.now.turns (state_of cursor.old))) result (state_of cursor.new) }
    {
        for _turn in 0..self.turns {
            if !cursor.sees(first_word(clause)) {
                return Ok(found);
            }
            add(
                self.alloc,
                &mut found,
                self.clause(cursor, clause)?.into_inner(),
            )?;
        }
        Err(ParseFault::NoMemory)
    }

    /// Clauses of one kind, of which there is at least one.
    #[tactic(auto, unfolding(cr_words::specs::Lists::gather))]
    fn some_of(&self, cursor: &mut Cursor<'_>, clause: Clause) -> Result<Items<Tree>, ParseFault>
        requires { Nests self.now.turns self.now.deep (F.pre self.now.inside) (F.post self.now.inside) }
        ensures { Reads (compounds.some_of self.now.turns (clauses.first_word clause) (clauses.clause self.now.turns (read self.now.turns self.now.deep) clause) (state_of cursor.old)) result (state_of cursor.new) }
    {
        let mut found = Items::new(self.alloc);
        add(
            self.alloc,
            &mut found,
            self.clause(cursor, clause)?.into_inner(),
        )?;
        self.more_clauses(cursor, clause, found)
    }

    /// The branches of `elsif`, which `unless` has not.
    #[tactic(auto, unfolding(crate::specs::Clauses::clause), using(cr_words::proofs::Loops::gather_none))]
    fn branches(
        &self,
        cursor: &mut Cursor<'_>,
        within: Within,
        unless: bool,
    ) -> Result<Items<Tree>, ParseFault>
        requires { Nests self.now.turns self.now.deep (F.pre self.now.inside) (F.post self.now.inside) }
        ensures { Reads (compounds.branches self.now.turns (read self.now.turns self.now.deep) within true unless (state_of cursor.old)) result (state_of cursor.new) }
    {
        if unless {
            return Ok(Items::new(self.alloc));
        }
        self.more_clauses(cursor, Clause::Elsif(within), Items::new(self.alloc))
    }

    /// `if` or `unless` behind its first statements.
    #[tactic(auto, unfolding(crate::specs::Clauses::behind_first))]
    fn behind_first(
        &self,
        cursor: &mut Cursor<'_>,
        within: Within,
        unless: bool,
        at: u32,
        condition: Boxed<Tree>,
        body: Items<Tree>,
    ) -> Result<Boxed<Tree>, ParseFault>
        requires { Nests self.now.turns self.now.deep (F.pre self.now.inside) (F.post self.now.inside) }
        ensures { Reads (clauses.behind_first self.now.turns (read self.now.turns self.now.deep) within unless at condition body (state_of cursor.old)) result (state_of cursor.new) }
    {
        let others = self.branches(cursor, within, unless)?;
        let otherwise = self.otherwise(cursor, within)?;
        cursor.expect(TokenLook::KeywordEnd)?;
        let tree = Tree::If {
            at,
            unless,
            condition,
            body,
            others,
            otherwise,
        };
        Ok(Boxed::new(self.alloc, tree)?)
    }

    /// `if` and `unless` up to their `end`.
    #[tactic(auto, unfolding(crate::specs::Clauses::behind_first))]
    pub fn conditional(
        &self,
        cursor: &mut Cursor<'_>,
        within: Within,
        look: TokenLook,
        unless: bool,
    ) -> Result<Boxed<Tree>, ParseFault>
        requires { Nests self.now.turns self.now.deep (F.pre self.now.inside) (F.post self.now.inside) }
        ensures { Reads (compounds.conditional self.now.turns (read self.now.turns self.now.deep) within true look unless (state_of cursor.old)) result (state_of cursor.new) }
    {
        let at = cursor.expect(look)?;
        cursor.grow(at)?;
        let condition = self.part(cursor, Wanted::Simple(within))?;
        self.then(cursor)?;
        let body = self.body(cursor, within)?;
        self.behind_first(cursor, within, unless, at, condition, body)
    }

    /// `while` and `until` up to their `end`.
    pub fn looping(
        &self,
        cursor: &mut Cursor<'_>,
        within: Within,
        look: TokenLook,
        until: bool,
    ) -> Result<Boxed<Tree>, ParseFault>
        requires { Nests self.now.turns self.now.deep (F.pre self.now.inside) (F.post self.now.inside) }
        ensures { Reads (compounds.looping self.now.turns (read self.now.turns self.now.deep) within true look until (state_of cursor.old)) result (state_of cursor.new) }
    {
        let at = cursor.expect(look)?;
        cursor.grow(at)?;
        let condition = self.part(cursor, Wanted::Simple(in_loop(within)))?;
        cursor.expect(TokenLook::Newline)?;
        let body = self.body(cursor, in_loop(within))?;
        cursor.expect(TokenLook::KeywordEnd)?;
        let tree = Tree::While {
            at,
            until,
            condition,
            body,
        };
        Ok(Boxed::new(self.alloc, tree)?)
    }

    /// `case` behind its line.
    #[tactic(auto, unfolding(crate::specs::Clauses::behind_value, crate::specs::Clauses::clause))]
    fn behind_value(
        &self,
        cursor: &mut Cursor<'_>,
        within: Within,
        at: u32,
        value: Boxed<Tree>,
    ) -> Result<Boxed<Tree>, ParseFault>
        requires { Nests self.now.turns self.now.deep (F.pre self.now.inside) (F.post self.now.inside) }
        ensures { Reads (clauses.behind_value self.now.turns (read self.now.turns self.now.deep) within at value (state_of cursor.old)) result (state_of cursor.new) }
    {
        separators(cursor, self.turns)?;
        let clauses = self.some_of(cursor, Clause::In(within))?;
        cursor.expect(TokenLook::KeywordEnd)?;
        let tree = Tree::Case { at, value, clauses };
        Ok(Boxed::new(self.alloc, tree)?)
    }

    /// `case` up to its `end`.
    #[tactic(auto, unfolding(crate::specs::Clauses::behind_value))]
    pub fn cases(&self, cursor: &mut Cursor<'_>, within: Within) -> Result<Boxed<Tree>, ParseFault>
        requires { Nests self.now.turns self.now.deep (F.pre self.now.inside) (F.post self.now.inside) }
        ensures { Reads (compounds.cases self.now.turns (read self.now.turns self.now.deep) within true (state_of cursor.old)) result (state_of cursor.new) }
    {
        let at = cursor.expect(TokenLook::Case)?;
        cursor.grow(at)?;
        let value = self.part(cursor, Wanted::Simple(within))?;
        cursor.expect(TokenLook::Newline)?;
        self.behind_value(cursor, within, at, value)
    }

    /// The clauses of `select` up to its `end`.
    #[tactic(auto, unfolding(crate::specs::Clauses::operations, crate::specs::Clauses::clause))]
    fn operations(
        &self,
        cursor: &mut Cursor<'_>,
        within: Within,
        free: bool,
        at: u32,
    ) -> Result<Boxed<Tree>, ParseFault>
        requires { Nests self.now.turns self.now.deep (F.pre self.now.inside) (F.post self.now.inside) }
        ensures { Reads (clauses.operations self.now.turns (read self.now.turns self.now.deep) within free at (state_of cursor.old)) result (state_of cursor.new) }
    {
        let clauses = self.some_of(cursor, Clause::When(within, free))?;
        let otherwise = self.otherwise(cursor, within)?;
        cursor.expect(TokenLook::KeywordEnd)?;
        let tree = Tree::Select {
            at,
            clauses,
            otherwise,
        };
        Ok(Boxed::new(self.alloc, tree)?)
    }

    /// `select` up to its `end`; the flag tells whether a `do` is free in its clauses.
    #[tactic(auto, unfolding(crate::specs::Clauses::operations))]
    pub fn select(
        &self,
        cursor: &mut Cursor<'_>,
        within: Within,
        free: bool,
    ) -> Result<Boxed<Tree>, ParseFault>
        requires { Nests self.now.turns self.now.deep (F.pre self.now.inside) (F.post self.now.inside) }
        ensures { Reads (compounds.select self.now.turns (read self.now.turns self.now.deep) within free (state_of cursor.old)) result (state_of cursor.new) }
    {
        let at = cursor.expect(TokenLook::Select)?;
        cursor.grow(at)?;
        cursor.expect(TokenLook::Newline)?;
        separators(cursor, self.turns)?;
        self.operations(cursor, within, free, at)
    }
}
