//! Core forms of assignments.

ghost use Rattle.std.specs.Prelude.{◌≡◌, true, false, map, OnOk, IfOk, length};
ghost use Rattle.cr_core.specs.declared.form.Form.TheVariants as f;
ghost use Rattle.cr_making.specs.Made.{Makes, Nests};
ghost use Rattle.cr_making.specs.Knot.{Rewrites};
ghost use Rattle.cr_making.specs.Part as p;
ghost use Rattle.cr_making.specs.Assigning as a;
ghost use Rattle.cr_making.specs.Table.{part, parts, maybe_part};

use crate::constructs::Constructs;
use cr_base::NoMemory;
use cr_core::{Form, Local};
use cr_grammar::{Assignment, Tree};
use cr_making::{Maker, View, is_bare, later_local, sent_form};
use cr_syntax::TokenText;
use sqlite_items::{Boxed, Items};

impl<F: Fn(&mut Maker, usize, View, &Tree) -> Result<(), NoMemory>> Constructs<F> {
    /// By what stands before the operator, which stands at `mark`.
    pub fn assign(
        &self,
        maker: &mut Maker,
        at: u32,
        target: &Boxed<Tree>,
        operator: Assignment,
        mark: u32,
        value: &Boxed<Tree>,
    ) -> Result<(), NoMemory>
        requires { Rewrites self.now.rewriter.fuel (F.pre self.now.rewriter.rewrite) (F.post self.now.rewriter.rewrite) }
        ensures { OnOk result (Makes (a.assign at (part target.now).head operator mark (part value.now).own) maker.old maker.new) }
    {
        self.assign_to(maker, at, target.get(), operator, mark, value)
    }

    fn assign_to(
        &self,
        maker: &mut Maker,
        at: u32,
        target: &Tree,
        operator: Assignment,
        mark: u32,
        value: &Boxed<Tree>,
    ) -> Result<(), NoMemory>
        requires { Rewrites self.now.rewriter.fuel (F.pre self.now.rewriter.rewrite) (F.post self.now.rewriter.rewrite) }
        ensures { OnOk result (Makes (a.assign at (part target.now).head operator mark (part value.now).own) maker.old maker.new) }
    {
        match target {
            Tree::Call {
                at: place,
                receiver,
                name,
                arguments,
                block,
            } => {
                let bare = is_bare(arguments, block);
                self.assign_call(
                    maker, at, *place, receiver, name, bare, operator, mark, value,
                )
            }
            Tree::Index {
                at: place,
                receiver,
                arguments,
                question,
            } => self.assign_index(
                maker, at, *place, receiver, arguments, *question, operator, mark, value,
            ),
            Tree::InstanceVariable { at: _, name } => {
                self.assign_variable(maker, at, name, operator, mark, value)
            }
            _ => maker.leaf(Form::Nil, at),
        }
    }

    fn assign_call(
        &self,
        maker: &mut Maker,
        at: u32,
        place: u32,
        receiver: &Option<Boxed<Tree>>,
        name: &TokenText,
        bare: bool,
        operator: Assignment,
        mark: u32,
        value: &Boxed<Tree>,
    ) -> Result<(), NoMemory>
        requires { Rewrites self.now.rewriter.fuel (F.pre self.now.rewriter.rewrite) (F.post self.now.rewriter.rewrite) }
        ensures { OnOk result (Makes (a.assign_call at place (p.maybe_own (maybe_part receiver.now)) name.now bare operator mark (part value.now).own) maker.old maker.new) }
    {
        if bare {
            self.assign_bare(maker, at, place, receiver, name, operator, mark, value)
        } else {
            maker.leaf(Form::Nil, at)
        }
    }

    fn assign_bare(
        &self,
        maker: &mut Maker,
        at: u32,
        place: u32,
        receiver: &Option<Boxed<Tree>>,
        name: &TokenText,
        operator: Assignment,
        mark: u32,
        value: &Boxed<Tree>,
    ) -> Result<(), NoMemory>
        requires { Rewrites self.now.rewriter.fuel (F.pre self.now.rewriter.rewrite) (F.post self.now.rewriter.rewrite) }
        ensures { OnOk result (Makes (a.assign_bare at place (p.maybe_own (maybe_part receiver.now)) name.now operator mark (part value.now).own) maker.old maker.new) }
    {
        match receiver {
            None => self.assign_name(maker, at, name, operator, mark, value),
            Some(receiver) => {
                self.assign_attribute(maker, place, receiver, name, operator, mark, value)
            }
        }
    }

    fn assign_index(
        &self,
        maker: &mut Maker,
        at: u32,
        place: u32,
        receiver: &Boxed<Tree>,
        arguments: &Items<Tree>,
        question: bool,
        operator: Assignment,
        mark: u32,
        value: &Boxed<Tree>,
    ) -> Result<(), NoMemory>
        requires { Rewrites self.now.rewriter.fuel (F.pre self.now.rewriter.rewrite) (F.post self.now.rewriter.rewrite) }
        ensures { OnOk result (Makes (a.assign_index at place (part receiver.now).own (map p.own_of (parts arguments.now)) question operator mark (part value.now).own) maker.old maker.new) }
    {
        if question {
            maker.leaf(Form::Nil, at)
        } else {
            self.assign_element(maker, place, receiver, arguments, operator, mark, value)
        }
    }

    // ---- names and instance variables

    fn assign_name(
        &self,
        maker: &mut Maker,
        at: u32,
        name: &TokenText,
        operator: Assignment,
        mark: u32,
        value: &Boxed<Tree>,
    ) -> Result<(), NoMemory>
        requires { Rewrites self.now.rewriter.fuel (F.pre self.now.rewriter.rewrite) (F.post self.now.rewriter.rewrite) }
        ensures { OnOk result (Makes (a.assign_name at name.now operator mark (part value.now).own) maker.old maker.new) }
    {
        let name = maker.token_name(name)?;
        let local = maker.target(name)?;
        let get = Form::Local(local);
        let set = Form::Set(local);
        self.assigned(maker, at, operator, mark, get, set, value)?;
        Ok(())
    }

    fn assign_variable(
        &self,
        maker: &mut Maker,
        at: u32,
        name: &TokenText,
        operator: Assignment,
        mark: u32,
        value: &Boxed<Tree>,
    ) -> Result<(), NoMemory>
        requires { Rewrites self.now.rewriter.fuel (F.pre self.now.rewriter.rewrite) (F.post self.now.rewriter.rewrite) }
        ensures { OnOk result (Makes (a.assign_variable at name.now operator mark (part value.now).own) maker.old maker.new) }
    {
        let name = maker.variable(name)?;
        let get = Form::Field(name);
        let set = Form::SetField(name);
        self.assigned(maker, at, operator, mark, get, set, value)?;
        Ok(())
    }

    fn assigned(
        &self,
        maker: &mut Maker,
        at: u32,
        operator: Assignment,
        mark: u32,
        get: Form,
        set: Form,
        value: &Boxed<Tree>,
    ) -> Result<(), NoMemory>
        requires { Rewrites self.now.rewriter.fuel (F.pre self.now.rewriter.rewrite) (F.post self.now.rewriter.rewrite) }
        ensures { OnOk result (Makes (a.assigned at operator mark get set (part value.now).own) maker.old maker.new) }
    {
        match operator {
            Assignment::Plain => self.set(maker, at, set, value),
            Assignment::Or => self.set_or(maker, mark, get, set, value),
            _ => self.compound(maker, operator, mark, get, set, value),
        }
    }

    fn set(
        &self,
        maker: &mut Maker,
        at: u32,
        set: Form,
        value: &Boxed<Tree>,
    ) -> Result<(), NoMemory>
        requires { Rewrites self.now.rewriter.fuel (F.pre self.now.rewriter.rewrite) (F.post self.now.rewriter.rewrite) }
        ensures { OnOk result (Makes (a.put set at (part value.now).own) maker.old maker.new) }
    {
        maker.open(set, at)?;
        self.rewriter.term(maker, value)?;
        maker.close()?;
        Ok(())
    }

    fn set_or(
        &self,
        maker: &mut Maker,
        mark: u32,
        get: Form,
        set: Form,
        value: &Boxed<Tree>,
    ) -> Result<(), NoMemory>
        requires { Rewrites self.now.rewriter.fuel (F.pre self.now.rewriter.rewrite) (F.post self.now.rewriter.rewrite) }
        ensures { OnOk result (Makes (a.put_or mark get set (part value.now).own) maker.old maker.new) }
    {
        maker.open(Form::Or, mark)?;
        maker.leaf(get, mark)?;
        self.set(maker, mark, set, value)?;
        maker.close()?;
        Ok(())
    }

    fn compound(
        &self,
        maker: &mut Maker,
        operator: Assignment,
        mark: u32,
        get: Form,
        set: Form,
        value: &Boxed<Tree>,
    ) -> Result<(), NoMemory>
        requires { Rewrites self.now.rewriter.fuel (F.pre self.now.rewriter.rewrite) (F.post self.now.rewriter.rewrite) }
        ensures { OnOk result (Makes (a.compound operator mark get set (part value.now).own) maker.old maker.new) }
    {
        maker.open(set, mark)?;
        let name = maker.assigned_name(operator)?;
        maker.open(sent_form(name), mark)?;
        maker.leaf(get, mark)?;
        self.rewriter.term(maker, value)?;
        maker.close()?;
        maker.close()?;
        Ok(())
    }

    // ---- attributes

    fn assign_attribute(
        &self,
        maker: &mut Maker,
        at: u32,
        receiver: &Boxed<Tree>,
        name: &TokenText,
        operator: Assignment,
        mark: u32,
        value: &Boxed<Tree>,
    ) -> Result<(), NoMemory>
        requires { Rewrites self.now.rewriter.fuel (F.pre self.now.rewriter.rewrite) (F.post self.now.rewriter.rewrite) }
        ensures { OnOk result (Makes (a.assign_attribute at (part receiver.now).own name.now operator mark (part value.now).own) maker.old maker.new) }
    {
        match operator {
            Assignment::Plain => self.set_attribute(maker, at, receiver, name, value),
            _ => self.change_attribute(maker, receiver, name, operator, mark, value),
        }
    }

    fn set_attribute(
        &self,
        maker: &mut Maker,
        at: u32,
        receiver: &Boxed<Tree>,
        name: &TokenText,
        value: &Boxed<Tree>,
    ) -> Result<(), NoMemory>
        requires { Rewrites self.now.rewriter.fuel (F.pre self.now.rewriter.rewrite) (F.post self.now.rewriter.rewrite) }
        ensures { OnOk result (Makes (a.set_attribute at (part receiver.now).own name.now (part value.now).own) maker.old maker.new) }
    {
        let setter = maker.setter(name)?;
        maker.open(sent_form(setter), at)?;
        self.rewriter.term(maker, receiver)?;
        self.rewriter.term(maker, value)?;
        maker.close()?;
        Ok(())
    }

    fn change_attribute(
        &self,
        maker: &mut Maker,
        receiver: &Boxed<Tree>,
        name: &TokenText,
        operator: Assignment,
        mark: u32,
        value: &Boxed<Tree>,
    ) -> Result<(), NoMemory>
        requires { Rewrites self.now.rewriter.fuel (F.pre self.now.rewriter.rewrite) (F.post self.now.rewriter.rewrite) }
        ensures { OnOk result (Makes (a.change_attribute (part receiver.now).own name.now operator mark (part value.now).own) maker.old maker.new) }
    {
        let local = maker.declare(None)?;
        maker.open(Form::Seq, mark)?;
        maker.open(Form::Set(local), mark)?;
        self.rewriter.term(maker, receiver)?;
        maker.close()?;
        let setter = maker.setter(name)?;
        maker.open(sent_form(setter), mark)?;
        maker.leaf(Form::Local(local), mark)?;
        let called = maker.assigned_name(operator)?;
        maker.open(sent_form(called), mark)?;
        let getter = maker.token_name(name)?;
        maker.open(sent_form(getter), mark)?;
        maker.leaf(Form::Local(local), mark)?;
        maker.close()?;
        self.rewriter.term(maker, value)?;
        maker.close()?;
        maker.close()?;
        maker.close()?;
        Ok(())
    }

    // ---- elements

    fn assign_element(
        &self,
        maker: &mut Maker,
        at: u32,
        receiver: &Boxed<Tree>,
        indexes: &Items<Tree>,
        operator: Assignment,
        mark: u32,
        value: &Boxed<Tree>,
    ) -> Result<(), NoMemory>
        requires { Rewrites self.now.rewriter.fuel (F.pre self.now.rewriter.rewrite) (F.post self.now.rewriter.rewrite) }
        ensures { OnOk result (Makes (a.assign_element at (part receiver.now).own (map p.own_of (parts indexes.now)) operator mark (part value.now).own) maker.old maker.new) }
    {
        match operator {
            Assignment::Plain => self.set_element(maker, at, receiver, indexes, value),
            _ => self.change_element(maker, receiver, indexes, operator, mark, value),
        }
    }

    fn set_element(
        &self,
        maker: &mut Maker,
        at: u32,
        receiver: &Boxed<Tree>,
        indexes: &Items<Tree>,
        value: &Boxed<Tree>,
    ) -> Result<(), NoMemory>
        requires { Rewrites self.now.rewriter.fuel (F.pre self.now.rewriter.rewrite) (F.post self.now.rewriter.rewrite) }
        ensures { OnOk result (Makes (a.set_element at (part receiver.now).own (map p.own_of (parts indexes.now)) (part value.now).own) maker.old maker.new) }
    {
        let name = maker.name("[]=")?;
        maker.open(sent_form(name), at)?;
        self.rewriter.term(maker, receiver)?;
        self.rewriter.each(maker, View::Term, indexes)?;
        self.rewriter.term(maker, value)?;
        maker.close()?;
        Ok(())
    }

    fn change_element(
        &self,
        maker: &mut Maker,
        receiver: &Boxed<Tree>,
        indexes: &Items<Tree>,
        operator: Assignment,
        mark: u32,
        value: &Boxed<Tree>,
    ) -> Result<(), NoMemory>
        requires { Rewrites self.now.rewriter.fuel (F.pre self.now.rewriter.rewrite) (F.post self.now.rewriter.rewrite) }
        ensures { OnOk result (Makes (a.change_element (part receiver.now).own (map p.own_of (parts indexes.now)) operator mark (part value.now).own) maker.old maker.new) }
    {
        let local = maker.fresh(indexes.len())?;
        maker.open(Form::Seq, mark)?;
        maker.open(Form::Set(local), mark)?;
        self.rewriter.term(maker, receiver)?;
        maker.close()?;
        self.keep_and_put(maker, indexes, operator, mark, local, value)?;
        maker.close()?;
        Ok(())
    }

    fn keep_and_put(
        &self,
        maker: &mut Maker,
        indexes: &Items<Tree>,
        operator: Assignment,
        mark: u32,
        local: Local,
        value: &Boxed<Tree>,
    ) -> Result<(), NoMemory>
        requires { Rewrites self.now.rewriter.fuel (F.pre self.now.rewriter.rewrite) (F.post self.now.rewriter.rewrite) }
        ensures { OnOk result (Makes (a.keep_and_put (map p.own_of (parts indexes.now)) operator mark local (part value.now).own) maker.old maker.new) }
    {
        let count = indexes.len();
        self.keep_indexes(maker, mark, local, indexes)?;
        self.put_element(maker, operator, mark, local, count, value)?;
        maker.close_all(count)?;
        Ok(())
    }

    /// The indexes are put into the locals behind this one.
    fn keep_indexes(
        &self,
        maker: &mut Maker,
        mark: u32,
        local: Local,
        indexes: &Items<Tree>,
    ) -> Result<(), NoMemory>
        requires { Rewrites self.now.rewriter.fuel (F.pre self.now.rewriter.rewrite) (F.post self.now.rewriter.rewrite) }
        ensures { OnOk result (Nests f.Seq (a.kept_indexes mark local 1 (map p.own_of (parts indexes.now))) maker.old maker.new) }
    {
        let indexes = indexes.as_slice();
        for (i, index) in indexes.iter().enumerate() {
            maker.open(Form::Seq, mark)?;
            let kept = later_local(local, i + 1)?;
            maker.open(Form::Set(kept), mark)?;
            self.rewriter.one(maker, View::Term, index)?;
            maker.close()?;
        }
        Ok(())
    }

    fn put_element(
        &self,
        maker: &mut Maker,
        operator: Assignment,
        mark: u32,
        local: Local,
        count: usize,
        value: &Boxed<Tree>,
    ) -> Result<(), NoMemory>
        requires { Rewrites self.now.rewriter.fuel (F.pre self.now.rewriter.rewrite) (F.post self.now.rewriter.rewrite) }
        ensures { OnOk result (Makes (a.put_element operator mark local count (part value.now).own) maker.old maker.new) }
    {
        let first = later_local(local, 1)?;
        let setter = maker.name("[]=")?;
        maker.open(sent_form(setter), mark)?;
        maker.leaf(Form::Local(local), mark)?;
        self.rewriter.locals(maker, mark, first, count)?;
        let called = maker.assigned_name(operator)?;
        maker.open(sent_form(called), mark)?;
        let getter = maker.name("[]")?;
        maker.open(sent_form(getter), mark)?;
        maker.leaf(Form::Local(local), mark)?;
        self.rewriter.locals(maker, mark, first, count)?;
        maker.close()?;
        self.rewriter.term(maker, value)?;
        maker.close()?;
        maker.close()?;
        Ok(())
    }
}
