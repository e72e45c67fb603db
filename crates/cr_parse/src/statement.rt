//! Statements.

ghost use Rattle.cr_bodies.specs.Nests.{Nests};
ghost use Rattle.cr_parse.specs.Rest as rest;
ghost use Rattle.cr_parse.specs.Targets as targets;
ghost use Rattle.cr_readers.specs.Bodies.{doblock};
ghost use Rattle.cr_readers.specs.Cursor.{state_of};
ghost use Rattle.cr_readers.specs.Descent.{list_of, read};
ghost use Rattle.cr_readers.specs.Goes.{begins_left};
ghost use Rattle.cr_readers.specs.Lists.{optional};
ghost use Rattle.cr_readers.specs.Operand as operands;
ghost use Rattle.cr_readers.specs.Operations as operations;
ghost use Rattle.cr_readers.specs.Reader.{allow, choose, part, seen};
ghost use Rattle.cr_readers.specs.Reads.{Reads};
ghost use Rattle.cr_readers.specs.Statements as statements;
ghost use Rattle.cr_syntax.specs.declared.look.TokenLook.TheVariants as l;
ghost use Rattle.cr_words.specs.Gives.{Gives};
ghost use Rattle.std.specs.Prelude.{None, [], not, true, ◌∷◌, ◌&&◌, ◌||◌};

use crate::assignments::{Assigned, Target, assignment_at, sees_assignment};
use crate::expressions::Expressions;
use cr_bodies::{Item, Lines};
use cr_grammar::{Assignment, Tree, Wanted, Word};
use cr_readers::{Cursor, Operand, ParseFault};
use cr_syntax::TokenLook;
use cr_words::{add, begins_left, whole};
use sqlite_items::{Boxed, Items};
use std::alloc::Global;

/// An assignment.
fn assign(
    alloc: Global,
    at: u32,
    target: Boxed<Tree>,
    operator: Assignment,
    operator_at: u32,
    value: Boxed<Tree>,
) -> Result<Boxed<Tree>, ParseFault>
    ensures { Gives (Tree.Assign at target operator operator_at value) result }
{
    let tree = Tree::Assign {
        at,
        target,
        operator,
        operator_at,
        value,
    };
    Ok(Boxed::new(alloc, tree)?)
}

/// A statement with a condition behind it.
fn conditional(
    alloc: Global,
    at: u32,
    tree: Boxed<Tree>,
    condition: Boxed<Tree>,
    unless: bool,
) -> Result<Boxed<Tree>, ParseFault>
    ensures { Gives (Tree.If at unless condition (tree ∷ []) [] None) result }
{
    let mut body = Items::new(alloc);
    add(alloc, &mut body, tree.into_inner())?;
    let conditional = Tree::If {
        at,
        unless,
        condition,
        body,
        others: Items::new(alloc),
        otherwise: None,
    };
    Ok(Boxed::new(alloc, conditional)?)
}

impl<
    F: Fn(Global, usize, usize, Wanted, &mut Cursor<'_>) -> Result<Boxed<Tree>, ParseFault>,
> Expressions<F> {
    /// A value, in a node above its target.
    fn value_at(&self, cursor: &mut Cursor<'_>, place: u32) -> Result<Boxed<Tree>, ParseFault>
        requires { Nests self.now.parser.turns self.now.parser.deep (F.pre self.now.parser.inside) (F.post self.now.parser.inside) }
        ensures { Reads (rest.value_at self.now.parser.turns (read self.now.parser.turns self.now.parser.deep) self.now.within place (state_of cursor.old)) result (state_of cursor.new) }
    {
        cursor.wrap(place)?;
        self.parser.part(cursor, Wanted::Simple(self.within))
    }

    /// `=` or its kin and a value.
    fn assigned(&self, cursor: &mut Cursor<'_>, target: Target) -> Result<Assigned, ParseFault>
        requires { Nests self.now.parser.turns self.now.parser.deep (F.pre self.now.parser.inside) (F.post self.now.parser.inside) }
        ensures { Reads (rest.assigned self.now.parser.turns (read self.now.parser.turns self.now.parser.deep) self.now.within (targets.table target) (state_of cursor.old)) result (state_of cursor.new) }
    {
        let (place, operator) = assignment_at(cursor, target)?;
        let value = self.value_at(cursor, place)?;
        Ok(Assigned {
            place,
            operator,
            value,
        })
    }

    /// `=` or its kin and a value, behind a target.
    #[tactic(auto, using(crate::proofs::Rest::assignment_steps))]
    fn assignment(
        &self,
        cursor: &mut Cursor<'_>,
        at: u32,
        tree: Boxed<Tree>,
        target: Target,
    ) -> Result<Boxed<Tree>, ParseFault>
        requires { Nests self.now.parser.turns self.now.parser.deep (F.pre self.now.parser.inside) (F.post self.now.parser.inside) }
        ensures { Reads (statements.assignment self.now.parser.turns (read self.now.parser.turns self.now.parser.deep) self.now.within at tree (targets.table target) (state_of cursor.old)) result (state_of cursor.new) }
    {
        let Assigned {
            place,
            operator,
            value,
        } = self.assigned(cursor, target)?;
        assign(self.parser.alloc, at, tree, operator, place, value)
    }

    /// Arguments without parentheses, in which a `do` is not free.
    fn bare_arguments(&self, cursor: &mut Cursor<'_>) -> Result<Items<Tree>, ParseFault>
        requires { Nests self.now.parser.turns self.now.parser.deep (F.pre self.now.parser.inside) (F.post self.now.parser.inside) }
        ensures { Reads (statements.bare_arguments self.now.parser.turns (read self.now.parser.turns self.now.parser.deep) self.now.within (state_of cursor.old)) result (state_of cursor.new) }
    {
        self.parser
            .listed(cursor, Item::Part(Wanted::Or(self.within, false)))
    }

    /// The `do` block of a command, if one comes.
    fn command_block(&self, cursor: &mut Cursor<'_>) -> Result<Option<Boxed<Tree>>, ParseFault>
        requires { Nests self.now.parser.turns self.now.parser.deep (F.pre self.now.parser.inside) (F.post self.now.parser.inside) }
        ensures { Reads (optional (seen l.Do) (doblock self.now.parser.turns (read self.now.parser.turns self.now.parser.deep) self.now.within) (state_of cursor.old)) result (state_of cursor.new) }
    {
        if !cursor.sees(TokenLook::Do) {
            return Ok(None);
        }
        Ok(Some(self.parser.doblock(cursor, self.within)?))
    }

    /// A call with arguments that have no parentheses, and maybe a `do` block.
    fn command(
        &self,
        cursor: &mut Cursor<'_>,
        receiver: Option<Boxed<Tree>>,
        name: Word,
    ) -> Result<Boxed<Tree>, ParseFault>
        requires { Nests self.now.parser.turns self.now.parser.deep (F.pre self.now.parser.inside) (F.post self.now.parser.inside) }
        ensures { Reads (statements.command self.now.parser.turns (read self.now.parser.turns self.now.parser.deep) self.now.within (λ arguments block. Tree.Call name.at receiver name.text arguments block) (state_of cursor.old)) result (state_of cursor.new) }
    {
        let arguments = self.bare_arguments(cursor)?;
        let block = self.command_block(cursor)?;
        let tree = Tree::Call {
            at: name.at,
            receiver,
            name: name.text,
            arguments,
            block,
        };
        Ok(Boxed::new(self.parser.alloc, tree)?)
    }

    /// `=` or its kin and a value, behind an operand.
    fn operand_assigned(
        &self,
        cursor: &mut Cursor<'_>,
        at: u32,
        operand: Operand,
        target: Target,
    ) -> Result<Boxed<Tree>, ParseFault>
        requires { Nests self.now.parser.turns self.now.parser.deep (F.pre self.now.parser.inside) (F.post self.now.parser.inside) }
        ensures { Reads (statements.assignment self.now.parser.turns (read self.now.parser.turns self.now.parser.deep) self.now.within at (operands.whole operand) (targets.table target) (state_of cursor.old)) result (state_of cursor.new) }
    {
        let tree = whole(self.parser.alloc, operand)?;
        self.assignment(cursor, at, tree, target)
    }

    /// What follows a first operand that ends with a token of this look.
    fn operand_behind(
        &self,
        cursor: &mut Cursor<'_>,
        operand: Operand,
        last: TokenLook,
    ) -> Result<Boxed<Tree>, ParseFault>
        requires { Nests self.now.parser.turns self.now.parser.deep (F.pre self.now.parser.inside) (F.post self.now.parser.inside) }
        ensures { Reads (statements.operation_behind self.now.parser.turns (read self.now.parser.turns self.now.parser.deep) self.now.within (operands.whole operand, last) (state_of cursor.old)) result (state_of cursor.new) }
    {
        let tree = whole(self.parser.alloc, operand)?;
        self.or_behind(cursor, true, (tree, last))
    }

    /// What follows a target that takes no arguments without parentheses.
    fn target_behind(
        &self,
        cursor: &mut Cursor<'_>,
        at: u32,
        operand: Operand,
        last: TokenLook,
        target: Target,
    ) -> Result<Boxed<Tree>, ParseFault>
        requires { Nests self.now.parser.turns self.now.parser.deep (F.pre self.now.parser.inside) (F.post self.now.parser.inside) }
        ensures { Reads (choose (statements.is_assigning (targets.table target)) (statements.assignment self.now.parser.turns (read self.now.parser.turns self.now.parser.deep) self.now.within at (operands.whole operand) (targets.table target)) (statements.operation_behind self.now.parser.turns (read self.now.parser.turns self.now.parser.deep) self.now.within (operands.whole operand, last)) (state_of cursor.old)) result (state_of cursor.new) }
    {
        if sees_assignment(cursor, target) {
            return self.operand_assigned(cursor, at, operand, target);
        }
        self.operand_behind(cursor, operand, last)
    }

    /// Arguments behind a name that begins a statement, or an operation.
    fn name_passing(&self, cursor: &mut Cursor<'_>, name: Word) -> Result<Boxed<Tree>, ParseFault>
        requires { Nests self.now.parser.turns self.now.parser.deep (F.pre self.now.parser.inside) (F.post self.now.parser.inside) }
        ensures { Reads (statements.unless_operation self.now.parser.turns (read self.now.parser.turns self.now.parser.deep) self.now.within (statements.command self.now.parser.turns (read self.now.parser.turns self.now.parser.deep) self.now.within (λ arguments block. Tree.Call name.at None name.text arguments block)) (operands.whole (Operand.Name name), l.Ident) (state_of cursor.old)) result (state_of cursor.new) }
    {
        if cursor.begins_argument() {
            return self.command(cursor, None, name);
        }
        self.operand_behind(cursor, Operand::Name(name), TokenLook::Ident)
    }

    /// What follows a name that begins a statement.
    fn name_behind(
        &self,
        cursor: &mut Cursor<'_>,
        at: u32,
        name: Word,
    ) -> Result<Boxed<Tree>, ParseFault>
        requires { Nests self.now.parser.turns self.now.parser.deep (F.pre self.now.parser.inside) (F.post self.now.parser.inside) }
        ensures { Reads (statements.behind self.now.parser.turns (read self.now.parser.turns self.now.parser.deep) self.now.within at (Operand.Name name, l.Ident) (state_of cursor.old)) result (state_of cursor.new) }
    {
        if sees_assignment(cursor, Target::Variable) {
            return self.operand_assigned(cursor, at, Operand::Name(name), Target::Variable);
        }
        self.name_passing(cursor, name)
    }

    /// Arguments behind `.x` that ends the operand of a statement, or an operation.
    fn field_passing(
        &self,
        cursor: &mut Cursor<'_>,
        receiver: Boxed<Tree>,
        name: Word,
    ) -> Result<Boxed<Tree>, ParseFault>
        requires { Nests self.now.parser.turns self.now.parser.deep (F.pre self.now.parser.inside) (F.post self.now.parser.inside) }
        ensures { Reads (statements.unless_operation self.now.parser.turns (read self.now.parser.turns self.now.parser.deep) self.now.within (statements.command self.now.parser.turns (read self.now.parser.turns self.now.parser.deep) self.now.within (λ arguments block. Tree.Call name.at (Some receiver) name.text arguments block)) (operands.whole (Operand.Field receiver name), l.Ident) (state_of cursor.old)) result (state_of cursor.new) }
    {
        if cursor.begins_argument() {
            return self.command(cursor, Some(receiver), name);
        }
        let field = Operand::Field(receiver, name);
        self.operand_behind(cursor, field, TokenLook::Ident)
    }

    /// What follows `.x` that ends the operand of a statement.
    fn field_behind(
        &self,
        cursor: &mut Cursor<'_>,
        at: u32,
        receiver: Boxed<Tree>,
        name: Word,
    ) -> Result<Boxed<Tree>, ParseFault>
        requires { Nests self.now.parser.turns self.now.parser.deep (F.pre self.now.parser.inside) (F.post self.now.parser.inside) }
        ensures { Reads (statements.behind self.now.parser.turns (read self.now.parser.turns self.now.parser.deep) self.now.within at (Operand.Field receiver name, l.Ident) (state_of cursor.old)) result (state_of cursor.new) }
    {
        if sees_assignment(cursor, Target::Link) {
            let field = Operand::Field(receiver, name);
            return self.operand_assigned(cursor, at, field, Target::Link);
        }
        self.field_passing(cursor, receiver, name)
    }

    /// What follows `yield` that begins a statement.
    fn yield_behind(&self, cursor: &mut Cursor<'_>, place: u32) -> Result<Boxed<Tree>, ParseFault>
        requires { Nests self.now.parser.turns self.now.parser.deep (F.pre self.now.parser.inside) (F.post self.now.parser.inside) }
        ensures { Reads (statements.behind self.now.parser.turns (read self.now.parser.turns self.now.parser.deep) self.now.within place (Operand.Yielding place, l.Yield) (state_of cursor.old)) result (state_of cursor.new) }
    {
        if cursor.begins_argument() {
            let arguments = self.bare_arguments(cursor)?;
            let tree = Tree::Yield {
                at: place,
                arguments,
            };
            return Ok(Boxed::new(self.parser.alloc, tree)?);
        }
        self.operand_behind(cursor, Operand::Yielding(place), TokenLook::Yield)
    }

    /// What follows `super` that begins a statement.
    fn super_behind(&self, cursor: &mut Cursor<'_>, place: u32) -> Result<Boxed<Tree>, ParseFault>
        requires { Nests self.now.parser.turns self.now.parser.deep (F.pre self.now.parser.inside) (F.post self.now.parser.inside) }
        ensures { Reads (statements.behind self.now.parser.turns (read self.now.parser.turns self.now.parser.deep) self.now.within place (Operand.Above place, l.Super) (state_of cursor.old)) result (state_of cursor.new) }
    {
        if cursor.begins_argument() {
            let arguments = self.bare_arguments(cursor)?;
            let tree = Tree::Super {
                at: place,
                arguments,
            };
            return Ok(Boxed::new(self.parser.alloc, tree)?);
        }
        self.operand_behind(cursor, Operand::Above(place), TokenLook::Super)
    }

    /// What follows a postfix that begins a statement at this place and ends with a token of this look.
    fn stmt_behind(
        &self,
        cursor: &mut Cursor<'_>,
        at: u32,
        operand: Operand,
        last: TokenLook,
    ) -> Result<Boxed<Tree>, ParseFault>
        requires { Nests self.now.parser.turns self.now.parser.deep (F.pre self.now.parser.inside) (F.post self.now.parser.inside) }
        ensures { Reads (statements.behind self.now.parser.turns (read self.now.parser.turns self.now.parser.deep) self.now.within at (operand, last) (state_of cursor.old)) result (state_of cursor.new) }
    {
        match operand {
            Operand::Name(name) => self.name_behind(cursor, at, name),
            Operand::Field(receiver, name) => self.field_behind(cursor, at, receiver, name),
            Operand::Element(place, receiver, arguments) => {
                let element = Operand::Element(place, receiver, arguments);
                self.target_behind(cursor, at, element, last, Target::Link)
            }
            Operand::Variable(name) => {
                self.target_behind(cursor, at, Operand::Variable(name), last, Target::Variable)
            }
            Operand::Yielding(place) => self.yield_behind(cursor, place),
            Operand::Above(place) => self.super_behind(cursor, place),
            Operand::Passing(name, receiver, value) => {
                self.operand_behind(cursor, Operand::Passing(name, receiver, value), last)
            }
            Operand::Whole(tree) => self.operand_behind(cursor, Operand::Whole(tree), last),
        }
    }

    /// A statement that begins with a postfix.
    fn from_postfix(&self, cursor: &mut Cursor<'_>) -> Result<Boxed<Tree>, ParseFault>
        requires { Nests self.now.parser.turns self.now.parser.deep (F.pre self.now.parser.inside) (F.post self.now.parser.inside) }
        ensures { Reads (statements.from_postfix self.now.parser.turns (read self.now.parser.turns self.now.parser.deep) self.now.within (state_of cursor.old)) result (state_of cursor.new) }
    {
        let at = cursor.place();
        let operand = self.postfix(cursor, true)?;
        let last = cursor.before();
        self.stmt_behind(cursor, at, operand, last)
    }

    /// A value in which a `do` is free.
    #[tactic(auto, unfolding(crate::specs::Rest::free_value))]
    fn free_value(&self, cursor: &mut Cursor<'_>) -> Result<Boxed<Tree>, ParseFault>
        requires { Nests self.now.parser.turns self.now.parser.deep (F.pre self.now.parser.inside) (F.post self.now.parser.inside) }
        ensures { Reads (rest.free_value self.now.parser.turns (read self.now.parser.turns self.now.parser.deep) self.now.within (state_of cursor.old)) result (state_of cursor.new) }
    {
        self.or(cursor, true)
    }

    /// A value, as a part.
    #[tactic(auto, unfolding(cr_readers::specs::Reader::part, cr_readers::specs::Cursor::entered, cr_readers::specs::Cursor::left_part))]
    fn value_part(&self, cursor: &mut Cursor<'_>) -> Result<Boxed<Tree>, ParseFault>
        requires { Nests self.now.parser.turns self.now.parser.deep (F.pre self.now.parser.inside) (F.post self.now.parser.inside) }
        ensures { Reads (part (rest.free_value self.now.parser.turns (read self.now.parser.turns self.now.parser.deep) self.now.within) (state_of cursor.old)) result (state_of cursor.new) }
    {
        let height = cursor.enter();
        let tree = self.free_value(cursor)?;
        cursor.leave(height);
        Ok(tree)
    }

    /// The value behind `return` or `next`, if one begins.
    #[tactic(auto, unfolding(crate::specs::Rest::free_value))]
    fn jump_value(&self, cursor: &mut Cursor<'_>) -> Result<Option<Boxed<Tree>>, ParseFault>
        requires { Nests self.now.parser.turns self.now.parser.deep (F.pre self.now.parser.inside) (F.post self.now.parser.inside) }
        ensures { Reads (optional (begins_left self.now.within) (part (operations.or self.now.parser.turns (read self.now.parser.turns self.now.parser.deep) self.now.within true)) (state_of cursor.old)) result (state_of cursor.new) }
    {
        if !begins_left(cursor, self.within) {
            return Ok(None);
        }
        Ok(Some(self.value_part(cursor)?))
    }

    /// `return`, where it may stand.
    fn return_stmt(&self, cursor: &mut Cursor<'_>) -> Result<Boxed<Tree>, ParseFault>
        requires { Nests self.now.parser.turns self.now.parser.deep (F.pre self.now.parser.inside) (F.post self.now.parser.inside) }
        ensures { Reads (allow (self.now.within.method && not self.now.within.block) (statements.leaving self.now.parser.turns (read self.now.parser.turns self.now.parser.deep) self.now.within l.Return (λ at value. Tree.Return at value)) (state_of cursor.old)) result (state_of cursor.new) }
    {
        if !self.within.method || self.within.block {
            return Err(cursor.refuse());
        }
        let at = cursor.expect(TokenLook::Return)?;
        cursor.grow(at)?;
        let value = self.jump_value(cursor)?;
        let tree = Tree::Return { at, value };
        Ok(Boxed::new(self.parser.alloc, tree)?)
    }

    /// `next`, where it may stand.
    fn next_stmt(&self, cursor: &mut Cursor<'_>) -> Result<Boxed<Tree>, ParseFault>
        requires { Nests self.now.parser.turns self.now.parser.deep (F.pre self.now.parser.inside) (F.post self.now.parser.inside) }
        ensures { Reads (allow (self.now.within.in_loop || self.now.within.block) (statements.leaving self.now.parser.turns (read self.now.parser.turns self.now.parser.deep) self.now.within l.Next (λ at value. Tree.Next at value)) (state_of cursor.old)) result (state_of cursor.new) }
    {
        if !self.within.in_loop && !self.within.block {
            return Err(cursor.refuse());
        }
        let at = cursor.expect(TokenLook::Next)?;
        cursor.grow(at)?;
        let value = self.jump_value(cursor)?;
        let tree = Tree::Next { at, value };
        Ok(Boxed::new(self.parser.alloc, tree)?)
    }

    /// `break`, where it may stand.
    fn break_stmt(&self, cursor: &mut Cursor<'_>) -> Result<Boxed<Tree>, ParseFault>
        ensures { Reads (allow self.now.within.in_loop (statements.breaking self.now.parser.turns (read self.now.parser.turns self.now.parser.deep) self.now.within) (state_of cursor.old)) result (state_of cursor.new) }
    {
        if !self.within.in_loop {
            return Err(cursor.refuse());
        }
        let at = cursor.expect(TokenLook::Break)?;
        cursor.grow(at)?;
        let tree = Tree::Break { at };
        Ok(Boxed::new(self.parser.alloc, tree)?)
    }

    /// A statement without modifier.
    pub fn simple(&self, cursor: &mut Cursor<'_>) -> Result<Boxed<Tree>, ParseFault>
        requires { Nests self.now.parser.turns self.now.parser.deep (F.pre self.now.parser.inside) (F.post self.now.parser.inside) }
        ensures { Reads (statements.simple self.now.parser.turns (read self.now.parser.turns self.now.parser.deep) self.now.within (state_of cursor.old)) result (state_of cursor.new) }
    {
        match cursor.look() {
            TokenLook::Return => self.return_stmt(cursor),
            TokenLook::Next => self.next_stmt(cursor),
            TokenLook::Break => self.break_stmt(cursor),
            TokenLook::Bang | TokenLook::Minus => self.or(cursor, true),
            _ => self.from_postfix(cursor),
        }
    }

    /// A condition behind a statement, as a part.
    #[tactic(auto, unfolding(cr_readers::specs::Reader::part, cr_readers::specs::Cursor::entered, cr_readers::specs::Cursor::left_part))]
    fn simple_part(&self, cursor: &mut Cursor<'_>) -> Result<Boxed<Tree>, ParseFault>
        requires { Nests self.now.parser.turns self.now.parser.deep (F.pre self.now.parser.inside) (F.post self.now.parser.inside) }
        ensures { Reads (part (statements.simple self.now.parser.turns (read self.now.parser.turns self.now.parser.deep) self.now.within) (state_of cursor.old)) result (state_of cursor.new) }
    {
        let height = cursor.enter();
        let tree = self.simple(cursor)?;
        cursor.leave(height);
        Ok(tree)
    }

    /// `if` or `unless` and a condition.
    fn condition(&self, cursor: &mut Cursor<'_>, look: TokenLook) -> Result<Boxed<Tree>, ParseFault>
        requires { Nests self.now.parser.turns self.now.parser.deep (F.pre self.now.parser.inside) (F.post self.now.parser.inside) }
        ensures { Reads (rest.condition self.now.parser.turns (read self.now.parser.turns self.now.parser.deep) self.now.within look (state_of cursor.old)) result (state_of cursor.new) }
    {
        let place = cursor.expect(look)?;
        cursor.wrap(place)?;
        self.simple_part(cursor)
    }

    /// `if` or `unless` and a condition, behind a statement.
    #[tactic(auto, using(crate::proofs::Rest::modified_steps))]
    fn modified(
        &self,
        cursor: &mut Cursor<'_>,
        at: u32,
        tree: Boxed<Tree>,
        look: TokenLook,
        unless: bool,
    ) -> Result<Boxed<Tree>, ParseFault>
        requires { Nests self.now.parser.turns self.now.parser.deep (F.pre self.now.parser.inside) (F.post self.now.parser.inside) }
        ensures { Reads (statements.modified self.now.parser.turns (read self.now.parser.turns self.now.parser.deep) self.now.within at tree look unless (state_of cursor.old)) result (state_of cursor.new) }
    {
        let condition = self.condition(cursor, look)?;
        conditional(self.parser.alloc, at, tree, condition, unless)
    }

    /// A statement.
    pub fn stmt(&self, cursor: &mut Cursor<'_>) -> Result<Boxed<Tree>, ParseFault>
        requires { Nests self.now.parser.turns self.now.parser.deep (F.pre self.now.parser.inside) (F.post self.now.parser.inside) }
        ensures { Reads (statements.stmt self.now.parser.turns (read self.now.parser.turns self.now.parser.deep) self.now.within (state_of cursor.old)) result (state_of cursor.new) }
    {
        let at = cursor.place();
        let tree = self.simple(cursor)?;
        if cursor.sees(TokenLook::If) {
            return self.modified(cursor, at, tree, TokenLook::If, false);
        }
        if cursor.sees(TokenLook::Unless) {
            return self.modified(cursor, at, tree, TokenLook::Unless, true);
        }
        Ok(tree)
    }

    /// A list of statements by itself.
    pub fn stmts(&self, cursor: &mut Cursor<'_>) -> Result<Boxed<Tree>, ParseFault>
        requires { Nests self.now.parser.turns self.now.parser.deep (F.pre self.now.parser.inside) (F.post self.now.parser.inside) }
        ensures { Reads (list_of self.now.parser.turns (read self.now.parser.turns self.now.parser.deep) self.now.within (state_of cursor.old)) result (state_of cursor.new) }
    {
        let list = self.parser.stmts(cursor, Lines::Alone(self.within))?;
        let tree = Tree::Statements { list };
        Ok(Boxed::new(self.parser.alloc, tree)?)
    }
}
