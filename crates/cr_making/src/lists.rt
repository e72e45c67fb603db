//! Lists of constructs: one loop for each place where they may stand, and statements as a nest of sequences.

ghost use Rattle.std.specs.Prelude.{◌≡◌, OnOk, IfOk, map, length, if◌then◌else◌};
ghost use Rattle.cr_core.specs.declared.form.Form.TheVariants as f;
ghost use Rattle.cr_making.specs.Made.{Makes, Nests};
ghost use Rattle.cr_making.specs.Making.{ahead};
ghost use Rattle.cr_making.specs.Making as m;
ghost use Rattle.cr_making.specs.Knot.{Rewrites};
ghost use Rattle.cr_making.specs.View.{viewed};
ghost use Rattle.cr_making.specs.View as v;
ghost use Rattle.cr_making.specs.Part as p;
ghost use Rattle.cr_making.specs.Terms as t;
ghost use Rattle.cr_making.specs.Table.{part, parts, maybe_part};

use crate::maker::Maker;
use crate::naming::later_local;
use crate::rewriter::Rewriter;
use crate::view::View;
use cr_base::NoMemory;
use cr_core::{Form, Local};
use cr_grammar::Tree;
use sqlite_items::{Boxed, Items};

pub fn is_empty(trees: &Items<Tree>) -> bool
    ensures { result ≡ p.is_empty (parts trees.now) }
{
    trees.is_empty()
}

/// Whether a call has neither arguments nor a block.
pub fn is_bare(arguments: &Items<Tree>, block: &Option<Boxed<Tree>>) -> bool
    ensures { result ≡ p.is_bare (parts arguments.now) (maybe_part block.now) }
{
    match block {
        Some(_) => false,
        None => is_empty(arguments),
    }
}

/// Whether the construct is no declaration.
fn is_statement(tree: &Tree) -> bool
    ensures { result ≡ (part tree.now).is_statement }
{
    match tree {
        Tree::Class { .. } => false,
        Tree::Module { .. } => false,
        Tree::Include { .. } => false,
        Tree::Declaration { .. } => false,
        Tree::Accessors { .. } => false,
        Tree::Def { .. } => false,
        _ => true,
    }
}

/// Whether a parameter is an instance variable.
fn is_field(tree: &Tree) -> bool
    ensures { result ≡ (part tree.now).is_field }
{
    match tree {
        Tree::Parameter {
            at: _,
            instance,
            name: _,
            restriction: _,
        } => *instance,
        _ => false,
    }
}

/// Whether it is one of those that follow one another in this place.
pub fn said(view: View, tree: &Tree) -> bool
    ensures { result ≡ v.said view (part tree.now) }
{
    match view {
        View::Kept => is_field(tree),
        _ => is_statement(tree),
    }
}

/// How many constructs there are up to the last that follows here. Zero where none does.
pub fn until_last(view: View, list: &[Tree]) -> usize
    ensures { v.IsUntilLast view list.now result }
{
    let mut count = 0;
    for (i, tree) in list.iter().enumerate() {
        count = if_said(said(view, tree), i + 1, count);
    }
    count
}

fn if_said(said: bool, next: usize, count: usize) -> usize
    ensures { result ≡ if said then next else count }
{
    if said { next } else { count }
}

impl<F: Fn(&mut Maker, usize, View, &Tree) -> Result<(), NoMemory>> Rewriter<F> {
    /// What is made of a construct in this place.
    pub fn one(&self, maker: &mut Maker, view: View, tree: &Tree) -> Result<(), NoMemory>
        requires { Rewrites self.now.fuel (F.pre self.now.rewrite) (F.post self.now.rewrite) }
        ensures { OnOk result (Makes (viewed view (part tree.now)) maker.old maker.new) }
    {
        (self.rewrite)(maker, self.fuel, view, tree)
    }

    /// The same of one in a box.
    pub fn boxed(&self, maker: &mut Maker, view: View, tree: &Boxed<Tree>) -> Result<(), NoMemory>
        requires { Rewrites self.now.fuel (F.pre self.now.rewrite) (F.post self.now.rewrite) }
        ensures { OnOk result (Makes (viewed view (part tree.now)) maker.old maker.new) }
    {
        self.one(maker, view, tree.get())
    }

    /// A construct as a term.
    pub fn term(&self, maker: &mut Maker, tree: &Boxed<Tree>) -> Result<(), NoMemory>
        requires { Rewrites self.now.fuel (F.pre self.now.rewrite) (F.post self.now.rewrite) }
        ensures { OnOk result (Makes (part tree.now).own maker.old maker.new) }
    {
        self.boxed(maker, View::Term, tree)
    }

    /// All, one after the other.
    pub fn each(&self, maker: &mut Maker, view: View, trees: &Items<Tree>) -> Result<(), NoMemory>
        requires { Rewrites self.now.fuel (F.pre self.now.rewrite) (F.post self.now.rewrite) }
        ensures { OnOk result (Makes (p.each (viewed view) (parts trees.now)) maker.old maker.new) }
    {
        for tree in trees.as_slice() {
            self.one(maker, view, tree)?;
        }
        Ok(())
    }

    /// One that may be there.
    pub fn maybe(
        &self,
        maker: &mut Maker,
        view: View,
        tree: &Option<Boxed<Tree>>,
    ) -> Result<(), NoMemory>
        requires { Rewrites self.now.fuel (F.pre self.now.rewrite) (F.post self.now.rewrite) }
        ensures { OnOk result (Makes (p.maybe (viewed view) (maybe_part tree.now)) maker.old maker.new) }
    {
        match tree {
            Some(tree) => self.boxed(maker, view, tree),
            None => Ok(()),
        }
    }

    /// Those that follow one another, each ahead of another. Gives how many they are.
    pub fn front(
        &self,
        maker: &mut Maker,
        at: u32,
        view: View,
        list: &[Tree],
    ) -> Result<usize, NoMemory>
        requires { Rewrites self.now.fuel (F.pre self.now.rewrite) (F.post self.now.rewrite) }
        ensures made { OnOk result (Nests f.Seq (map (ahead at) (v.said_lines view (parts list.now))) maker.old maker.new) }
        ensures count { IfOk result (λ count. count ≡ length (v.said_lines view (parts list.now))) }
    {
        let mut count = 0;
        for tree in list {
            count += self.ahead(maker, at, view, tree)?;
        }
        Ok(count)
    }

    /// One of them, where it is one. Gives how many nodes it began.
    fn ahead(&self, maker: &mut Maker, at: u32, view: View, tree: &Tree) -> Result<usize, NoMemory>
        requires { Rewrites self.now.fuel (F.pre self.now.rewrite) (F.post self.now.rewrite) }
        ensures made { OnOk result (Nests f.Seq (map (ahead at) (v.said_line view (part tree.now))) maker.old maker.new) }
        ensures count { IfOk result (λ count. count ≡ length (v.said_line view (part tree.now))) }
    {
        if !said(view, tree) {
            return Ok(0);
        }
        maker.open(Form::Seq, at)?;
        self.one(maker, view, tree)?;
        Ok(1)
    }

    /// `Seq(s1, Seq(s2, .. sn))`; one alone is itself; nil where there are none.
    pub fn sequence(
        &self,
        maker: &mut Maker,
        at: u32,
        view: View,
        list: &[Tree],
    ) -> Result<(), NoMemory>
        requires { Rewrites self.now.fuel (F.pre self.now.rewrite) (F.post self.now.rewrite) }
        ensures { OnOk result (Makes (m.sequence at (v.said_lines view (parts list.now))) maker.old maker.new) }
    {
        let count = until_last(view, list);
        let Some((last, front)) = list[..count].split_last() else {
            maker.leaf(Form::Nil, at)?;
            return Ok(());
        };
        let opened = self.front(maker, at, view, front)?;
        self.one(maker, view, last)?;
        maker.close_all(opened)?;
        Ok(())
    }

    /// The statements of a list.
    pub fn statements(&self, maker: &mut Maker, at: u32, list: &Items<Tree>) -> Result<(), NoMemory>
        requires { Rewrites self.now.fuel (F.pre self.now.rewrite) (F.post self.now.rewrite) }
        ensures { OnOk result (Makes (p.statements at (parts list.now)) maker.old maker.new) }
    {
        self.sequence(maker, at, View::Term, list.as_slice())?;
        Ok(())
    }

    /// So many locals in a row.
    pub fn locals(
        &self,
        maker: &mut Maker,
        at: u32,
        first: Local,
        count: usize,
    ) -> Result<(), NoMemory>
        requires { Rewrites self.now.fuel (F.pre self.now.rewrite) (F.post self.now.rewrite) }
        ensures { OnOk result (Makes (t.locals at first count) maker.old maker.new) }
    {
        for i in 0..count {
            let local = later_local(first, i)?;
            maker.leaf(Form::Local(local), at)?;
        }
        Ok(())
    }
}
