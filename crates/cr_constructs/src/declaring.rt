//! Core forms of declarations.

ghost use Rattle.std.specs.Prelude.{◌≡◌, ◌++◌, true, false, map, OnOk, IfOk, length};
ghost use Rattle.cr_core.specs.declared.form.Form.TheVariants as f;
ghost use Rattle.cr_making.specs.Made.{Makes, Nests};
ghost use Rattle.cr_making.specs.Making.{ahead, all, nothing, sequence};
ghost use Rattle.cr_making.specs.Knot.{Rewrites};
ghost use Rattle.cr_making.specs.Part as p;
ghost use Rattle.cr_making.specs.Declaring as d;
ghost use Rattle.cr_making.specs.Table.{part, parts, maybe_part};

use crate::constructs::Constructs;
use cr_base::{NameId, NoMemory};
use cr_core::Form;
use cr_grammar::Tree;
use cr_making::{Maker, View, def_form, local_form, made_form, parameter_form, until_last};
use cr_syntax::TokenText;
use sqlite_items::{Boxed, Items};

impl<F: Fn(&mut Maker, usize, View, &Tree) -> Result<(), NoMemory>> Constructs<F> {
    /// A declaration.
    pub fn members(&self, maker: &mut Maker, tree: &Tree) -> Result<(), NoMemory>
        requires { Rewrites self.now.rewriter.fuel (F.pre self.now.rewriter.rewrite) (F.post self.now.rewriter.rewrite) }
        ensures { OnOk result (Makes ((part tree.now).members) maker.old maker.new) }
    {
        match tree {
            Tree::Class {
                at,
                name,
                parameters,
                superclass,
                members,
            } => self.class(maker, *at, name, parameters, superclass, members),
            Tree::Module { at, name, members } => self.module(maker, *at, name, members),
            Tree::Include { at, name } => self.include(maker, *at, name),
            Tree::Declaration { at, name, of } => self.declaration(maker, *at, name, of),
            Tree::Accessors {
                at: _,
                property,
                accessors,
            } => self
                .rewriter
                .each(maker, View::Accessor(*property), accessors),
            Tree::Def {
                at,
                name,
                parameters,
                result: of,
                body,
            } => self.method_members(maker, *at, name, parameters, of, body),
            _ => Ok(()),
        }
    }

    // ---- parameters

    /// A parameter.
    pub fn parameter_of(&self, maker: &mut Maker, tree: &Tree) -> Result<(), NoMemory>
        requires { Rewrites self.now.rewriter.fuel (F.pre self.now.rewriter.rewrite) (F.post self.now.rewriter.rewrite) }
        ensures { OnOk result (Makes ((part tree.now).parameter) maker.old maker.new) }
    {
        match tree {
            Tree::Parameter {
                at,
                instance: _,
                name,
                restriction,
            } => self.parameter(maker, *at, name, restriction),
            _ => Ok(()),
        }
    }

    fn parameter(
        &self,
        maker: &mut Maker,
        at: u32,
        name: &TokenText,
        restriction: &Option<Boxed<Tree>>,
    ) -> Result<(), NoMemory>
        requires { Rewrites self.now.rewriter.fuel (F.pre self.now.rewriter.rewrite) (F.post self.now.rewriter.rewrite) }
        ensures { OnOk result (Makes (d.parameter at name.now (maybe_part restriction.now)) maker.old maker.new) }
    {
        let name = maker.token_name(name)?;
        let local = maker.declare(Some(name))?;
        maker.open(parameter_form(local, restriction), at)?;
        self.rewriter.maybe(maker, View::Union(at), restriction)?;
        maker.close()?;
        Ok(())
    }

    fn declaration(
        &self,
        maker: &mut Maker,
        at: u32,
        name: &TokenText,
        of: &Boxed<Tree>,
    ) -> Result<(), NoMemory>
        requires { Rewrites self.now.rewriter.fuel (F.pre self.now.rewriter.rewrite) (F.post self.now.rewriter.rewrite) }
        ensures { OnOk result (Makes (d.declaration at name.now (part of.now)) maker.old maker.new) }
    {
        let name = maker.variable(name)?;
        maker.open(Form::Declaration(name), at)?;
        self.rewriter.boxed(maker, View::Union(at), of)?;
        maker.close()?;
        Ok(())
    }

    fn maybe_declaration(
        &self,
        maker: &mut Maker,
        at: u32,
        name: &TokenText,
        of: &Option<Boxed<Tree>>,
    ) -> Result<(), NoMemory>
        requires { Rewrites self.now.rewriter.fuel (F.pre self.now.rewriter.rewrite) (F.post self.now.rewriter.rewrite) }
        ensures { OnOk result (Makes (d.maybe_declaration at name.now (maybe_part of.now)) maker.old maker.new) }
    {
        match of {
            Some(of) => self.declaration(maker, at, name, of),
            None => Ok(()),
        }
    }

    /// `@x = x`
    fn kept(&self, maker: &mut Maker, at: u32, name: &TokenText) -> Result<(), NoMemory>
        requires { Rewrites self.now.rewriter.fuel (F.pre self.now.rewriter.rewrite) (F.post self.now.rewriter.rewrite) }
        ensures { OnOk result (Makes (d.kept at name.now) maker.old maker.new) }
    {
        let id = maker.token_name(name)?;
        let local = maker.found(id)?;
        let field = maker.variable(name)?;
        maker.open(Form::SetField(field), at)?;
        maker.leaf(local_form(id, local), at)?;
        maker.close()?;
        Ok(())
    }

    /// The instance variable that a parameter declares.
    pub fn fields(&self, maker: &mut Maker, tree: &Tree) -> Result<(), NoMemory>
        requires { Rewrites self.now.rewriter.fuel (F.pre self.now.rewriter.rewrite) (F.post self.now.rewriter.rewrite) }
        ensures { OnOk result (Makes ((part tree.now).fields) maker.old maker.new) }
    {
        match tree {
            Tree::Parameter {
                at,
                instance,
                name,
                restriction,
            } => self.parameter_fields(maker, *at, *instance, name, restriction),
            _ => Ok(()),
        }
    }

    fn parameter_fields(
        &self,
        maker: &mut Maker,
        at: u32,
        instance: bool,
        name: &TokenText,
        restriction: &Option<Boxed<Tree>>,
    ) -> Result<(), NoMemory>
        requires { Rewrites self.now.rewriter.fuel (F.pre self.now.rewriter.rewrite) (F.post self.now.rewriter.rewrite) }
        ensures { OnOk result (Makes (d.parameter_fields at instance name.now (maybe_part restriction.now)) maker.old maker.new) }
    {
        if instance {
            self.maybe_declaration(maker, at, name, restriction)
        } else {
            Ok(())
        }
    }

    // ---- methods

    fn method_members(
        &self,
        maker: &mut Maker,
        at: u32,
        name: &TokenText,
        parameters: &Items<Tree>,
        of: &Option<Boxed<Tree>>,
        body: &Items<Tree>,
    ) -> Result<(), NoMemory>
        requires { Rewrites self.now.rewriter.fuel (F.pre self.now.rewriter.rewrite) (F.post self.now.rewriter.rewrite) }
        ensures { OnOk result (Makes (d.method_members at name.now (parts parameters.now) (maybe_part of.now) (parts body.now)) maker.old maker.new) }
    {
        self.rewriter.each(maker, View::Fields, parameters)?;
        self.method(maker, at, name, parameters, of, body)?;
        Ok(())
    }

    fn method(
        &self,
        maker: &mut Maker,
        at: u32,
        name: &TokenText,
        parameters: &Items<Tree>,
        of: &Option<Boxed<Tree>>,
        body: &Items<Tree>,
    ) -> Result<(), NoMemory>
        requires { Rewrites self.now.rewriter.fuel (F.pre self.now.rewriter.rewrite) (F.post self.now.rewriter.rewrite) }
        ensures { OnOk result (Makes (d.method at name.now (parts parameters.now) (maybe_part of.now) (parts body.now)) maker.old maker.new) }
    {
        let name = maker.token_name(name)?;
        let apart = maker.enter_apart()?;
        maker.open(def_form(name, apart.number, of), at)?;
        self.rewriter.each(maker, View::Parameter, parameters)?;
        let _ = maker.with_parameters();
        self.rewriter.maybe(maker, View::Union(at), of)?;
        self.body(maker, at, parameters, body)?;
        maker.close()?;
        maker.rejoin(apart);
        Ok(())
    }

    /// What the parameters assign, and then the statements.
    fn body(
        &self,
        maker: &mut Maker,
        at: u32,
        parameters: &Items<Tree>,
        list: &Items<Tree>,
    ) -> Result<(), NoMemory>
        requires { Rewrites self.now.rewriter.fuel (F.pre self.now.rewriter.rewrite) (F.post self.now.rewriter.rewrite) }
        ensures { OnOk result (Makes (d.body at (parts parameters.now) (parts list.now)) maker.old maker.new) }
    {
        let parameters = parameters.as_slice();
        let list = list.as_slice();
        let count = until_last(View::Term, list);
        if count == 0 {
            self.rewriter.sequence(maker, at, View::Kept, parameters)?;
            return Ok(());
        }
        let opened = self.rewriter.front(maker, at, View::Kept, parameters)?;
        self.rewriter.sequence(maker, at, View::Term, list)?;
        maker.close_all(opened)?;
        Ok(())
    }

    /// What a parameter assigns before the body.
    pub fn kept_of(&self, maker: &mut Maker, tree: &Tree) -> Result<(), NoMemory>
        requires { Rewrites self.now.rewriter.fuel (F.pre self.now.rewriter.rewrite) (F.post self.now.rewriter.rewrite) }
        ensures { OnOk result (Makes ((part tree.now).kept) maker.old maker.new) }
    {
        match tree {
            Tree::Parameter {
                at,
                instance: _,
                name,
                restriction: _,
            } => self.kept(maker, *at, name),
            _ => Ok(()),
        }
    }

    // ---- accessors

    /// An accessor of a `property`, or of a `getter`.
    pub fn accessor_of(
        &self,
        maker: &mut Maker,
        property: bool,
        tree: &Tree,
    ) -> Result<(), NoMemory>
        requires { Rewrites self.now.rewriter.fuel (F.pre self.now.rewriter.rewrite) (F.post self.now.rewriter.rewrite) }
        ensures { OnOk result (Makes ((part tree.now).accessor property) maker.old maker.new) }
    {
        match tree {
            Tree::Accessor { at, name, of } => self.accessor(maker, *at, name, of, property),
            _ => Ok(()),
        }
    }

    fn accessor(
        &self,
        maker: &mut Maker,
        at: u32,
        name: &TokenText,
        of: &Option<Boxed<Tree>>,
        property: bool,
    ) -> Result<(), NoMemory>
        requires { Rewrites self.now.rewriter.fuel (F.pre self.now.rewriter.rewrite) (F.post self.now.rewriter.rewrite) }
        ensures { OnOk result (Makes (d.accessor at name.now (maybe_part of.now) property) maker.old maker.new) }
    {
        if property {
            self.property(maker, at, name, of)
        } else {
            self.getter(maker, at, name, of)
        }
    }

    fn getter(
        &self,
        maker: &mut Maker,
        at: u32,
        name: &TokenText,
        of: &Option<Boxed<Tree>>,
    ) -> Result<(), NoMemory>
        requires { Rewrites self.now.rewriter.fuel (F.pre self.now.rewriter.rewrite) (F.post self.now.rewriter.rewrite) }
        ensures { OnOk result (Makes (d.getter at name.now (maybe_part of.now)) maker.old maker.new) }
    {
        self.maybe_declaration(maker, at, name, of)?;
        self.reader(maker, at, name)?;
        Ok(())
    }

    fn property(
        &self,
        maker: &mut Maker,
        at: u32,
        name: &TokenText,
        of: &Option<Boxed<Tree>>,
    ) -> Result<(), NoMemory>
        requires { Rewrites self.now.rewriter.fuel (F.pre self.now.rewriter.rewrite) (F.post self.now.rewriter.rewrite) }
        ensures { OnOk result (Makes (d.property at name.now (maybe_part of.now)) maker.old maker.new) }
    {
        self.maybe_declaration(maker, at, name, of)?;
        self.reader(maker, at, name)?;
        self.writer(maker, at, name, of)?;
        Ok(())
    }

    /// `def x; @x; end`
    fn reader(&self, maker: &mut Maker, at: u32, name: &TokenText) -> Result<(), NoMemory>
        requires { Rewrites self.now.rewriter.fuel (F.pre self.now.rewriter.rewrite) (F.post self.now.rewriter.rewrite) }
        ensures { OnOk result (Makes (d.reader at name.now) maker.old maker.new) }
    {
        let id = maker.token_name(name)?;
        let apart = maker.enter_apart()?;
        maker.open(made_form(id, apart.number), at)?;
        let field = maker.variable(name)?;
        maker.leaf(Form::Field(field), at)?;
        maker.close()?;
        maker.rejoin(apart);
        Ok(())
    }

    /// `def x=(x : T); @x = x; end`
    fn writer(
        &self,
        maker: &mut Maker,
        at: u32,
        name: &TokenText,
        of: &Option<Boxed<Tree>>,
    ) -> Result<(), NoMemory>
        requires { Rewrites self.now.rewriter.fuel (F.pre self.now.rewriter.rewrite) (F.post self.now.rewriter.rewrite) }
        ensures { OnOk result (Makes (d.writer at name.now (maybe_part of.now)) maker.old maker.new) }
    {
        let id = maker.setter(name)?;
        let apart = maker.enter_apart()?;
        maker.open(made_form(id, apart.number), at)?;
        self.parameter(maker, at, name, of)?;
        let _ = maker.with_parameters();
        self.kept(maker, at, name)?;
        maker.close()?;
        maker.rejoin(apart);
        Ok(())
    }

    // ---- classes and modules

    fn class(
        &self,
        maker: &mut Maker,
        at: u32,
        name: &TokenText,
        parameters: &Items<TokenText>,
        superclass: &Option<TokenText>,
        members: &Items<Tree>,
    ) -> Result<(), NoMemory>
        requires { Rewrites self.now.rewriter.fuel (F.pre self.now.rewriter.rewrite) (F.post self.now.rewriter.rewrite) }
        ensures { OnOk result (Makes (d.class at name.now parameters.now superclass.now (parts members.now)) maker.old maker.new) }
    {
        let id = maker.token_name(name)?;
        self.class_by(maker, at, id, parameters, superclass, members)?;
        Ok(())
    }

    fn class_by(
        &self,
        maker: &mut Maker,
        at: u32,
        id: NameId,
        parameters: &Items<TokenText>,
        superclass: &Option<TokenText>,
        members: &Items<Tree>,
    ) -> Result<(), NoMemory>
        requires { Rewrites self.now.rewriter.fuel (F.pre self.now.rewriter.rewrite) (F.post self.now.rewriter.rewrite) }
        ensures { OnOk result (Makes (d.class_by at parameters.now superclass.now (parts members.now) id) maker.old maker.new) }
    {
        match superclass {
            Some(superclass) => self.class_below(maker, at, id, superclass, parameters, members),
            None => self.class_with(maker, at, id, None, parameters, members),
        }
    }

    fn class_below(
        &self,
        maker: &mut Maker,
        at: u32,
        name: NameId,
        superclass: &TokenText,
        parameters: &Items<TokenText>,
        members: &Items<Tree>,
    ) -> Result<(), NoMemory>
        requires { Rewrites self.now.rewriter.fuel (F.pre self.now.rewriter.rewrite) (F.post self.now.rewriter.rewrite) }
        ensures { OnOk result (Makes (d.class_below at name superclass.now parameters.now (parts members.now)) maker.old maker.new) }
    {
        let above = maker.token_name(superclass)?;
        self.class_with(maker, at, name, Some(above), parameters, members)?;
        Ok(())
    }

    fn class_with(
        &self,
        maker: &mut Maker,
        at: u32,
        name: NameId,
        superclass: Option<NameId>,
        parameters: &Items<TokenText>,
        members: &Items<Tree>,
    ) -> Result<(), NoMemory>
        requires { Rewrites self.now.rewriter.fuel (F.pre self.now.rewriter.rewrite) (F.post self.now.rewriter.rewrite) }
        ensures { OnOk result (Makes (d.class_with at name superclass parameters.now (parts members.now)) maker.old maker.new) }
    {
        maker.open(Form::Class { name, superclass }, at)?;
        self.type_parameters(maker, at, parameters)?;
        self.rewriter.each(maker, View::Member, members)?;
        maker.close()?;
        Ok(())
    }

    fn type_parameters(
        &self,
        maker: &mut Maker,
        at: u32,
        parameters: &Items<TokenText>,
    ) -> Result<(), NoMemory>
        requires { Rewrites self.now.rewriter.fuel (F.pre self.now.rewriter.rewrite) (F.post self.now.rewriter.rewrite) }
        ensures { OnOk result (Makes (all (map (d.type_parameter at) parameters.now)) maker.old maker.new) }
    {
        for name in parameters.as_slice() {
            self.type_parameter(maker, at, name)?;
        }
        Ok(())
    }

    fn type_parameter(&self, maker: &mut Maker, at: u32, name: &TokenText) -> Result<(), NoMemory>
        requires { Rewrites self.now.rewriter.fuel (F.pre self.now.rewriter.rewrite) (F.post self.now.rewriter.rewrite) }
        ensures { OnOk result (Makes (d.type_parameter at name.now) maker.old maker.new) }
    {
        let name = maker.token_name(name)?;
        maker.leaf(Form::TypeParameter(name), at)?;
        Ok(())
    }

    fn module(
        &self,
        maker: &mut Maker,
        at: u32,
        name: &TokenText,
        members: &Items<Tree>,
    ) -> Result<(), NoMemory>
        requires { Rewrites self.now.rewriter.fuel (F.pre self.now.rewriter.rewrite) (F.post self.now.rewriter.rewrite) }
        ensures { OnOk result (Makes (d.module_ at name.now (parts members.now)) maker.old maker.new) }
    {
        let name = maker.token_name(name)?;
        maker.open(Form::Module(name), at)?;
        self.rewriter.each(maker, View::Member, members)?;
        maker.close()?;
        Ok(())
    }

    fn include(&self, maker: &mut Maker, at: u32, name: &TokenText) -> Result<(), NoMemory>
        requires { Rewrites self.now.rewriter.fuel (F.pre self.now.rewriter.rewrite) (F.post self.now.rewriter.rewrite) }
        ensures { OnOk result (Makes (d.include at name.now) maker.old maker.new) }
    {
        let name = maker.token_name(name)?;
        maker.leaf(Form::Include(name), at)?;
        Ok(())
    }
}
