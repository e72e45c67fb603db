//! Core forms of conditions, loops, jumps, `case` and `select`.

ghost use Rattle.std.specs.Prelude.{◌≡◌, true, false, map, OnOk};
ghost use Rattle.cr_core.specs.declared.form.Form.{Form};
ghost use Rattle.cr_making.specs.Made.{Makes};
ghost use Rattle.cr_making.specs.Knot.{Rewrites};
ghost use Rattle.cr_making.specs.Part as p;
ghost use Rattle.cr_making.specs.Control as c;
ghost use Rattle.cr_making.specs.Table.{part, parts, maybe_part, maybe_parts};

use crate::constructs::Constructs;
use cr_base::NoMemory;
use cr_core::{Form, Local};
use cr_grammar::Tree;
use cr_making::{Maker, Operation, View, is_bare, operation_of, sent_form};
use cr_syntax::TokenText;
use sqlite_items::{Boxed, Items};

impl<F: Fn(&mut Maker, usize, View, &Tree) -> Result<(), NoMemory>> Constructs<F> {
    // ---- `if`, `elsif` and `unless`

    fn otherwise(
        &self,
        maker: &mut Maker,
        at: u32,
        last: &Option<Items<Tree>>,
    ) -> Result<(), NoMemory>
        requires { Rewrites self.now.rewriter.fuel (F.pre self.now.rewriter.rewrite) (F.post self.now.rewriter.rewrite) }
        ensures { OnOk result (Makes (c.otherwise at (maybe_parts last.now)) maker.old maker.new) }
    {
        match last {
            Some(body) => self.rewriter.statements(maker, at, body),
            None => maker.leaf(Form::Nil, at),
        }
    }

    fn branches(
        &self,
        maker: &mut Maker,
        at: u32,
        others: &Items<Tree>,
        last: &Option<Items<Tree>>,
    ) -> Result<(), NoMemory>
        requires { Rewrites self.now.rewriter.fuel (F.pre self.now.rewriter.rewrite) (F.post self.now.rewriter.rewrite) }
        ensures { OnOk result (Makes (c.branches at (parts others.now) (maybe_parts last.now)) maker.old maker.new) }
    {
        let others = others.as_slice();
        for other in others {
            maker.open(Form::If, branch_place(other))?;
            self.rewriter.one(maker, View::Branch, other)?;
        }
        self.otherwise(maker, at, last)?;
        maker.close_all(others.len())?;
        Ok(())
    }

    fn sides(
        &self,
        maker: &mut Maker,
        at: u32,
        unless: bool,
        body: &Items<Tree>,
        others: &Items<Tree>,
        last: &Option<Items<Tree>>,
    ) -> Result<(), NoMemory>
        requires { Rewrites self.now.rewriter.fuel (F.pre self.now.rewriter.rewrite) (F.post self.now.rewriter.rewrite) }
        ensures { OnOk result (Makes (c.sides unless (p.statements at (parts body.now)) (c.branches at (parts others.now) (maybe_parts last.now))) maker.old maker.new) }
    {
        if unless {
            let before = maker.set_aside();
            self.rewriter.statements(maker, at, body)?;
            let then = maker.put_back(before);
            self.branches(maker, at, others, last)?;
            maker.add(then)?;
            return Ok(());
        }
        self.rewriter.statements(maker, at, body)?;
        self.branches(maker, at, others, last)?;
        Ok(())
    }

    /// An `if` or `unless`.
    pub fn conditional(
        &self,
        maker: &mut Maker,
        at: u32,
        unless: bool,
        condition: &Boxed<Tree>,
        body: &Items<Tree>,
        others: &Items<Tree>,
        last: &Option<Items<Tree>>,
    ) -> Result<(), NoMemory>
        requires { Rewrites self.now.rewriter.fuel (F.pre self.now.rewriter.rewrite) (F.post self.now.rewriter.rewrite) }
        ensures { OnOk result (Makes (c.conditional at unless (part condition.now) (parts body.now) (parts others.now) (maybe_parts last.now)) maker.old maker.new) }
    {
        maker.open(Form::If, at)?;
        self.rewriter.term(maker, condition)?;
        self.sides(maker, at, unless, body, others, last)?;
        maker.close()?;
        Ok(())
    }

    /// An `elsif`: its condition and what follows.
    pub fn branch_of(&self, maker: &mut Maker, tree: &Tree) -> Result<(), NoMemory>
        requires { Rewrites self.now.rewriter.fuel (F.pre self.now.rewriter.rewrite) (F.post self.now.rewriter.rewrite) }
        ensures { OnOk result (Makes ((part tree.now).branch.made) maker.old maker.new) }
    {
        match tree {
            Tree::Branch {
                at,
                condition,
                body,
            } => self.branch(maker, *at, condition, body),
            _ => self.nils(maker),
        }
    }

    fn branch(
        &self,
        maker: &mut Maker,
        at: u32,
        condition: &Boxed<Tree>,
        body: &Items<Tree>,
    ) -> Result<(), NoMemory>
        requires { Rewrites self.now.rewriter.fuel (F.pre self.now.rewriter.rewrite) (F.post self.now.rewriter.rewrite) }
        ensures { OnOk result (Makes (c.branch at (part condition.now) (parts body.now)) maker.old maker.new) }
    {
        self.rewriter.term(maker, condition)?;
        self.rewriter.statements(maker, at, body)?;
        Ok(())
    }

    /// In place of a condition and what follows.
    fn nils(&self, maker: &mut Maker) -> Result<(), NoMemory>
        requires { Rewrites self.now.rewriter.fuel (F.pre self.now.rewriter.rewrite) (F.post self.now.rewriter.rewrite) }
        ensures { OnOk result (Makes (c.two_nils) maker.old maker.new) }
    {
        maker.leaf(Form::Nil, 0)?;
        maker.leaf(Form::Nil, 0)?;
        Ok(())
    }

    // ---- loops and jumps

    /// A `while` or `until`.
    pub fn repeat(
        &self,
        maker: &mut Maker,
        at: u32,
        until: bool,
        condition: &Boxed<Tree>,
        body: &Items<Tree>,
    ) -> Result<(), NoMemory>
        requires { Rewrites self.now.rewriter.fuel (F.pre self.now.rewriter.rewrite) (F.post self.now.rewriter.rewrite) }
        ensures { OnOk result (Makes (c.loop at until (part condition.now) (parts body.now)) maker.old maker.new) }
    {
        maker.open(Form::While, at)?;
        maker.open(Form::If, at)?;
        self.test(maker, at, until, condition)?;
        maker.open(Form::Seq, at)?;
        self.rewriter.statements(maker, at, body)?;
        maker.leaf(Form::Again, at)?;
        maker.close()?;
        maker.leaf(Form::Nil, at)?;
        maker.close()?;
        maker.close()?;
        Ok(())
    }

    fn test(
        &self,
        maker: &mut Maker,
        at: u32,
        until: bool,
        condition: &Boxed<Tree>,
    ) -> Result<(), NoMemory>
        requires { Rewrites self.now.rewriter.fuel (F.pre self.now.rewriter.rewrite) (F.post self.now.rewriter.rewrite) }
        ensures { OnOk result (Makes (c.test at until (part condition.now).own) maker.old maker.new) }
    {
        if until {
            maker.open(Form::Not, at)?;
            self.rewriter.term(maker, condition)?;
            maker.close()?;
            return Ok(());
        }
        self.rewriter.term(maker, condition)
    }

    /// A `return` or `next`, of this form.
    pub fn jump(
        &self,
        maker: &mut Maker,
        form: Form,
        at: u32,
        value: &Option<Boxed<Tree>>,
    ) -> Result<(), NoMemory>
        requires { Rewrites self.now.rewriter.fuel (F.pre self.now.rewriter.rewrite) (F.post self.now.rewriter.rewrite) }
        ensures { OnOk result (Makes (c.jump form at (maybe_part value.now)) maker.old maker.new) }
    {
        maker.open(form, at)?;
        self.own_or_nil(maker, at, value)?;
        maker.close()?;
        Ok(())
    }

    fn own_or_nil(
        &self,
        maker: &mut Maker,
        at: u32,
        value: &Option<Boxed<Tree>>,
    ) -> Result<(), NoMemory>
        requires { Rewrites self.now.rewriter.fuel (F.pre self.now.rewriter.rewrite) (F.post self.now.rewriter.rewrite) }
        ensures { OnOk result (Makes (c.own_or_nil at (maybe_part value.now)) maker.old maker.new) }
    {
        match value {
            Some(value) => self.rewriter.term(maker, value),
            None => maker.leaf(Form::Nil, at),
        }
    }

    // ---- `case`

    /// A `case` with its clauses.
    pub fn case(
        &self,
        maker: &mut Maker,
        at: u32,
        value: &Boxed<Tree>,
        clauses: &Items<Tree>,
    ) -> Result<(), NoMemory>
        requires { Rewrites self.now.rewriter.fuel (F.pre self.now.rewriter.rewrite) (F.post self.now.rewriter.rewrite) }
        ensures { OnOk result (Makes (c.case_of at (part value.now).head (part value.now).own (parts clauses.now)) maker.old maker.new) }
    {
        self.case_head(maker, at, value.get(), value, clauses)
    }

    fn case_head(
        &self,
        maker: &mut Maker,
        at: u32,
        head: &Tree,
        value: &Boxed<Tree>,
        clauses: &Items<Tree>,
    ) -> Result<(), NoMemory>
        requires { Rewrites self.now.rewriter.fuel (F.pre self.now.rewriter.rewrite) (F.post self.now.rewriter.rewrite) }
        ensures { OnOk result (Makes (c.case_of at (part head.now).head (part value.now).own (parts clauses.now)) maker.old maker.new) }
    {
        match head {
            Tree::Call {
                at: _,
                receiver,
                name,
                arguments,
                block,
            } => {
                let bare = is_bare(arguments, block);
                self.case_receiver(maker, at, receiver, name, bare, value, clauses)
            }
            _ => self.case_fresh(maker, at, value, clauses),
        }
    }

    fn case_receiver(
        &self,
        maker: &mut Maker,
        at: u32,
        receiver: &Option<Boxed<Tree>>,
        name: &TokenText,
        bare: bool,
        value: &Boxed<Tree>,
        clauses: &Items<Tree>,
    ) -> Result<(), NoMemory>
        requires { Rewrites self.now.rewriter.fuel (F.pre self.now.rewriter.rewrite) (F.post self.now.rewriter.rewrite) }
        ensures { OnOk result (Makes (c.case_receiver at (p.maybe_own (maybe_part receiver.now)) bare name.now (part value.now).own (parts clauses.now)) maker.old maker.new) }
    {
        match receiver {
            Some(_) => self.case_fresh(maker, at, value, clauses),
            None => self.case_call(maker, at, name, bare, value, clauses),
        }
    }

    /// The value is a call without receiver, which may be a local.
    fn case_call(
        &self,
        maker: &mut Maker,
        at: u32,
        name: &TokenText,
        bare: bool,
        value: &Boxed<Tree>,
        clauses: &Items<Tree>,
    ) -> Result<(), NoMemory>
        requires { Rewrites self.now.rewriter.fuel (F.pre self.now.rewriter.rewrite) (F.post self.now.rewriter.rewrite) }
        ensures { OnOk result (Makes (c.case_call at bare name.now (part value.now).own (parts clauses.now)) maker.old maker.new) }
    {
        if bare {
            self.case_name(maker, at, name, value, clauses)
        } else {
            self.case_fresh(maker, at, value, clauses)
        }
    }

    fn case_name(
        &self,
        maker: &mut Maker,
        at: u32,
        name: &TokenText,
        value: &Boxed<Tree>,
        clauses: &Items<Tree>,
    ) -> Result<(), NoMemory>
        requires { Rewrites self.now.rewriter.fuel (F.pre self.now.rewriter.rewrite) (F.post self.now.rewriter.rewrite) }
        ensures { OnOk result (Makes (c.case_name at name.now (part value.now).own (parts clauses.now)) maker.old maker.new) }
    {
        let id = maker.token_name(name)?;
        let local = maker.found(id)?;
        self.case_by(maker, at, local, value, clauses)?;
        Ok(())
    }

    fn case_by(
        &self,
        maker: &mut Maker,
        at: u32,
        local: Option<Local>,
        value: &Boxed<Tree>,
        clauses: &Items<Tree>,
    ) -> Result<(), NoMemory>
        requires { Rewrites self.now.rewriter.fuel (F.pre self.now.rewriter.rewrite) (F.post self.now.rewriter.rewrite) }
        ensures { OnOk result (Makes (c.case_by at (part value.now).own (parts clauses.now) local) maker.old maker.new) }
    {
        match local {
            Some(local) => self.arms(maker, at, Form::Local(local), clauses),
            None => self.case_fresh(maker, at, value, clauses),
        }
    }

    fn case_fresh(
        &self,
        maker: &mut Maker,
        at: u32,
        value: &Boxed<Tree>,
        clauses: &Items<Tree>,
    ) -> Result<(), NoMemory>
        requires { Rewrites self.now.rewriter.fuel (F.pre self.now.rewriter.rewrite) (F.post self.now.rewriter.rewrite) }
        ensures { OnOk result (Makes (c.case_fresh at (part value.now).own (parts clauses.now)) maker.old maker.new) }
    {
        let local = maker.declare(None)?;
        maker.open(Form::Seq, at)?;
        maker.open(Form::Set(local), at)?;
        self.rewriter.term(maker, value)?;
        maker.close()?;
        self.arms(maker, at, Form::Local(local), clauses)?;
        maker.close()?;
        Ok(())
    }

    /// The clauses, where this form reads the value.
    fn arms(
        &self,
        maker: &mut Maker,
        at: u32,
        get: Form,
        clauses: &Items<Tree>,
    ) -> Result<(), NoMemory>
        requires { Rewrites self.now.rewriter.fuel (F.pre self.now.rewriter.rewrite) (F.post self.now.rewriter.rewrite) }
        ensures { OnOk result (Makes (c.arms at (parts clauses.now) get) maker.old maker.new) }
    {
        let clauses = clauses.as_slice();
        for clause in clauses {
            maker.open(Form::If, arm_place(clause))?;
            self.rewriter.one(maker, View::Arm(get), clause)?;
        }
        self.no_arm(maker, at, get)?;
        maker.close_all(clauses.len())?;
        Ok(())
    }

    /// The call behind the last clause, which no class defines.
    fn no_arm(&self, maker: &mut Maker, at: u32, get: Form) -> Result<(), NoMemory>
        requires { Rewrites self.now.rewriter.fuel (F.pre self.now.rewriter.rewrite) (F.post self.now.rewriter.rewrite) }
        ensures { OnOk result (Makes (c.no_arm at get) maker.old maker.new) }
    {
        let name = maker.name("in")?;
        maker.open(sent_form(name), at)?;
        maker.leaf(get, at)?;
        maker.close()?;
        Ok(())
    }

    /// An `in`: its test and what follows.
    pub fn arm_of(&self, maker: &mut Maker, get: Form, tree: &Tree) -> Result<(), NoMemory>
        requires { Rewrites self.now.rewriter.fuel (F.pre self.now.rewriter.rewrite) (F.post self.now.rewriter.rewrite) }
        ensures { OnOk result (Makes (((part tree.now).arm get).made) maker.old maker.new) }
    {
        match tree {
            Tree::In { at, types, body } => self.arm(maker, *at, types, body, get),
            _ => self.nils(maker),
        }
    }

    fn arm(
        &self,
        maker: &mut Maker,
        at: u32,
        types: &Items<Tree>,
        body: &Items<Tree>,
        get: Form,
    ) -> Result<(), NoMemory>
        requires { Rewrites self.now.rewriter.fuel (F.pre self.now.rewriter.rewrite) (F.post self.now.rewriter.rewrite) }
        ensures { OnOk result (Makes (c.arm at (parts types.now) (parts body.now) get) maker.old maker.new) }
    {
        maker.open(Form::IsA, at)?;
        maker.leaf(get, at)?;
        self.rewriter.each(maker, View::Atoms, types)?;
        maker.close()?;
        self.rewriter.statements(maker, at, body)?;
        Ok(())
    }

    // ---- `select`

    /// A `select` with its clauses.
    pub fn select(
        &self,
        maker: &mut Maker,
        at: u32,
        clauses: &Items<Tree>,
        otherwise: &Option<Items<Tree>>,
    ) -> Result<(), NoMemory>
        requires { Rewrites self.now.rewriter.fuel (F.pre self.now.rewriter.rewrite) (F.post self.now.rewriter.rewrite) }
        ensures { OnOk result (Makes (c.select at (parts clauses.now) (maybe_parts otherwise.now)) maker.old maker.new) }
    {
        match otherwise {
            Some(last) => self.select_or(maker, at, clauses, last),
            None => self.select_alone(maker, at, clauses),
        }
    }

    fn select_alone(
        &self,
        maker: &mut Maker,
        at: u32,
        clauses: &Items<Tree>,
    ) -> Result<(), NoMemory>
        requires { Rewrites self.now.rewriter.fuel (F.pre self.now.rewriter.rewrite) (F.post self.now.rewriter.rewrite) }
        ensures { OnOk result (Makes (c.select_alone at (parts clauses.now)) maker.old maker.new) }
    {
        maker.open(Form::Select { otherwise: false }, at)?;
        self.rewriter.each(maker, View::Clause, clauses)?;
        maker.close()?;
        Ok(())
    }

    fn select_or(
        &self,
        maker: &mut Maker,
        at: u32,
        clauses: &Items<Tree>,
        last: &Items<Tree>,
    ) -> Result<(), NoMemory>
        requires { Rewrites self.now.rewriter.fuel (F.pre self.now.rewriter.rewrite) (F.post self.now.rewriter.rewrite) }
        ensures { OnOk result (Makes (c.select_or at (parts clauses.now) (parts last.now)) maker.old maker.new) }
    {
        maker.open(Form::Select { otherwise: true }, at)?;
        self.rewriter.each(maker, View::Clause, clauses)?;
        self.rewriter.statements(maker, at, last)?;
        maker.close()?;
        Ok(())
    }

    /// A `when` of a `select`.
    pub fn clause(&self, maker: &mut Maker, tree: &Tree) -> Result<(), NoMemory>
        requires { Rewrites self.now.rewriter.fuel (F.pre self.now.rewriter.rewrite) (F.post self.now.rewriter.rewrite) }
        ensures { OnOk result (Makes ((part tree.now).clause) maker.old maker.new) }
    {
        match tree {
            Tree::When {
                at,
                target,
                operation,
                body,
            } => self.when(maker, *at, target, operation, body),
            _ => Ok(()),
        }
    }

    fn when(
        &self,
        maker: &mut Maker,
        mark: u32,
        target: &Option<Boxed<Tree>>,
        operation: &Boxed<Tree>,
        body: &Items<Tree>,
    ) -> Result<(), NoMemory>
        requires { Rewrites self.now.rewriter.fuel (F.pre self.now.rewriter.rewrite) (F.post self.now.rewriter.rewrite) }
        ensures { OnOk result (Makes (c.when mark (c.target_head (maybe_part target.now)) (part operation.now).head (parts body.now)) maker.old maker.new) }
    {
        self.when_head(maker, mark, target, operation.get(), body)
    }

    fn when_head(
        &self,
        maker: &mut Maker,
        mark: u32,
        target: &Option<Boxed<Tree>>,
        operation: &Tree,
        body: &Items<Tree>,
    ) -> Result<(), NoMemory>
        requires { Rewrites self.now.rewriter.fuel (F.pre self.now.rewriter.rewrite) (F.post self.now.rewriter.rewrite) }
        ensures { OnOk result (Makes (c.when mark (c.target_head (maybe_part target.now)) (part operation.now).head (parts body.now)) maker.old maker.new) }
    {
        match operation {
            Tree::Call {
                at,
                receiver,
                name,
                arguments,
                block: _,
            } => self.when_called(maker, mark, *at, receiver, target, name, arguments, body),
            _ => Ok(()),
        }
    }

    fn when_called(
        &self,
        maker: &mut Maker,
        mark: u32,
        at: u32,
        receiver: &Option<Boxed<Tree>>,
        target: &Option<Boxed<Tree>>,
        name: &TokenText,
        arguments: &Items<Tree>,
        body: &Items<Tree>,
    ) -> Result<(), NoMemory>
        requires { Rewrites self.now.rewriter.fuel (F.pre self.now.rewriter.rewrite) (F.post self.now.rewriter.rewrite) }
        ensures { OnOk result (Makes (c.when_called mark at (p.maybe_own (maybe_part receiver.now)) (c.target_head (maybe_part target.now)) name.now (map p.own_of (parts arguments.now)) (parts body.now)) maker.old maker.new) }
    {
        match receiver {
            Some(channel) => {
                let operation = operation_of(name.as_str());
                self.operate(maker, operation, mark, at, target, channel, arguments, body)
            }
            None => Ok(()),
        }
    }

    fn operate(
        &self,
        maker: &mut Maker,
        operation: Operation,
        mark: u32,
        at: u32,
        target: &Option<Boxed<Tree>>,
        channel: &Boxed<Tree>,
        arguments: &Items<Tree>,
        body: &Items<Tree>,
    ) -> Result<(), NoMemory>
        requires { Rewrites self.now.rewriter.fuel (F.pre self.now.rewriter.rewrite) (F.post self.now.rewriter.rewrite) }
        ensures { OnOk result (Makes (c.operate operation mark at (c.target_head (maybe_part target.now)) (part channel.now).own (map p.own_of (parts arguments.now)) (parts body.now)) maker.old maker.new) }
    {
        match operation {
            Operation::Send => self.send(maker, mark, at, channel, arguments, body),
            Operation::Receive => {
                self.receive(maker, Form::Receive, mark, at, target, channel, body)
            }
            Operation::ReceiveOrNil => {
                self.receive(maker, Form::ReceiveOrNil, mark, at, target, channel, body)
            }
            Operation::NoOperation => Ok(()),
        }
    }

    fn send(
        &self,
        maker: &mut Maker,
        mark: u32,
        at: u32,
        channel: &Boxed<Tree>,
        arguments: &Items<Tree>,
        body: &Items<Tree>,
    ) -> Result<(), NoMemory>
        requires { Rewrites self.now.rewriter.fuel (F.pre self.now.rewriter.rewrite) (F.post self.now.rewriter.rewrite) }
        ensures { OnOk result (Makes (c.send mark at (part channel.now).own (map p.own_of (parts arguments.now)) (parts body.now)) maker.old maker.new) }
    {
        match arguments.as_slice() {
            [value] => self.send_value(maker, mark, at, channel, value, body),
            _ => Ok(()),
        }
    }

    fn send_value(
        &self,
        maker: &mut Maker,
        mark: u32,
        at: u32,
        channel: &Boxed<Tree>,
        value: &Tree,
        body: &Items<Tree>,
    ) -> Result<(), NoMemory>
        requires { Rewrites self.now.rewriter.fuel (F.pre self.now.rewriter.rewrite) (F.post self.now.rewriter.rewrite) }
        ensures { OnOk result (Makes (c.send_value mark at (part channel.now).own (part value.now).own (parts body.now)) maker.old maker.new) }
    {
        maker.open(Form::Send, at)?;
        self.rewriter.term(maker, channel)?;
        self.rewriter.one(maker, View::Term, value)?;
        self.rewriter.statements(maker, mark, body)?;
        maker.close()?;
        Ok(())
    }

    fn receive(
        &self,
        maker: &mut Maker,
        form: Form,
        mark: u32,
        at: u32,
        target: &Option<Boxed<Tree>>,
        channel: &Boxed<Tree>,
        body: &Items<Tree>,
    ) -> Result<(), NoMemory>
        requires { Rewrites self.now.rewriter.fuel (F.pre self.now.rewriter.rewrite) (F.post self.now.rewriter.rewrite) }
        ensures { OnOk result (Makes (c.receive form mark at (c.target_head (maybe_part target.now)) (part channel.now).own (parts body.now)) maker.old maker.new) }
    {
        match target {
            Some(target) => self.receive_boxed(maker, form, mark, at, target, channel, body),
            None => self.receive_alone(maker, form, mark, at, channel, body),
        }
    }

    fn receive_boxed(
        &self,
        maker: &mut Maker,
        form: Form,
        mark: u32,
        at: u32,
        target: &Boxed<Tree>,
        channel: &Boxed<Tree>,
        body: &Items<Tree>,
    ) -> Result<(), NoMemory>
        requires { Rewrites self.now.rewriter.fuel (F.pre self.now.rewriter.rewrite) (F.post self.now.rewriter.rewrite) }
        ensures { OnOk result (Makes (c.receive form mark at (part target.now).head (part channel.now).own (parts body.now)) maker.old maker.new) }
    {
        self.receive_as(maker, form, mark, at, target.get(), channel, body)
    }

    fn receive_as(
        &self,
        maker: &mut Maker,
        form: Form,
        mark: u32,
        at: u32,
        target: &Tree,
        channel: &Boxed<Tree>,
        body: &Items<Tree>,
    ) -> Result<(), NoMemory>
        requires { Rewrites self.now.rewriter.fuel (F.pre self.now.rewriter.rewrite) (F.post self.now.rewriter.rewrite) }
        ensures { OnOk result (Makes (c.receive form mark at (part target.now).head (part channel.now).own (parts body.now)) maker.old maker.new) }
    {
        match target {
            Tree::Call {
                at: place,
                receiver,
                name,
                arguments,
                block,
            } => {
                let bare = is_bare(arguments, block);
                self.receive_called(
                    maker, form, mark, at, *place, receiver, bare, name, channel, body,
                )
            }
            _ => self.receive_alone(maker, form, mark, at, channel, body),
        }
    }

    fn receive_called(
        &self,
        maker: &mut Maker,
        form: Form,
        mark: u32,
        at: u32,
        place: u32,
        receiver: &Option<Boxed<Tree>>,
        bare: bool,
        name: &TokenText,
        channel: &Boxed<Tree>,
        body: &Items<Tree>,
    ) -> Result<(), NoMemory>
        requires { Rewrites self.now.rewriter.fuel (F.pre self.now.rewriter.rewrite) (F.post self.now.rewriter.rewrite) }
        ensures { OnOk result (Makes (c.receive_called form mark at place (p.maybe_own (maybe_part receiver.now)) bare name.now (part channel.now).own (parts body.now)) maker.old maker.new) }
    {
        match receiver {
            Some(_) => self.receive_alone(maker, form, mark, at, channel, body),
            None => self.receive_bare(maker, form, mark, at, place, bare, name, channel, body),
        }
    }

    fn receive_bare(
        &self,
        maker: &mut Maker,
        form: Form,
        mark: u32,
        at: u32,
        place: u32,
        bare: bool,
        name: &TokenText,
        channel: &Boxed<Tree>,
        body: &Items<Tree>,
    ) -> Result<(), NoMemory>
        requires { Rewrites self.now.rewriter.fuel (F.pre self.now.rewriter.rewrite) (F.post self.now.rewriter.rewrite) }
        ensures { OnOk result (Makes (c.receive_bare form mark at place bare name.now (part channel.now).own (parts body.now)) maker.old maker.new) }
    {
        if bare {
            self.receive_name(maker, form, mark, at, place, name, channel, body)
        } else {
            self.receive_alone(maker, form, mark, at, channel, body)
        }
    }

    fn receive_alone(
        &self,
        maker: &mut Maker,
        form: Form,
        mark: u32,
        at: u32,
        channel: &Boxed<Tree>,
        body: &Items<Tree>,
    ) -> Result<(), NoMemory>
        requires { Rewrites self.now.rewriter.fuel (F.pre self.now.rewriter.rewrite) (F.post self.now.rewriter.rewrite) }
        ensures { OnOk result (Makes (c.receive_alone form mark at (part channel.now).own (parts body.now)) maker.old maker.new) }
    {
        maker.open(form, at)?;
        self.rewriter.term(maker, channel)?;
        self.rewriter.statements(maker, mark, body)?;
        maker.close()?;
        Ok(())
    }

    fn receive_name(
        &self,
        maker: &mut Maker,
        form: Form,
        mark: u32,
        at: u32,
        place: u32,
        name: &TokenText,
        channel: &Boxed<Tree>,
        body: &Items<Tree>,
    ) -> Result<(), NoMemory>
        requires { Rewrites self.now.rewriter.fuel (F.pre self.now.rewriter.rewrite) (F.post self.now.rewriter.rewrite) }
        ensures { OnOk result (Makes (c.receive_name form mark at place name.now (part channel.now).own (parts body.now)) maker.old maker.new) }
    {
        let name = maker.token_name(name)?;
        let local = maker.target(name)?;
        maker.open(form, at)?;
        self.rewriter.term(maker, channel)?;
        maker.open(Form::Seq, mark)?;
        maker.open(Form::Set(local), place)?;
        maker.leaf(Form::Received, at)?;
        maker.close()?;
        self.rewriter.statements(maker, mark, body)?;
        maker.close()?;
        maker.close()?;
        Ok(())
    }
}

/// The place of an `elsif`.
fn branch_place(tree: &Tree) -> u32
    ensures { result ≡ (part tree.now).branch.at }
{
    match tree {
        Tree::Branch {
            at,
            condition: _,
            body: _,
        } => *at,
        _ => 0,
    }
}

/// The place of an `in`, whatever reads the value.
fn arm_place(tree: &Tree) -> u32
    ensures { (get : Form) → result ≡ ((part tree.now).arm get).at }
{
    match tree {
        Tree::In {
            at,
            types: _,
            body: _,
        } => *at,
        _ => 0,
    }
}
