//! Core forms of names, calls, operators, literals, texts and types.

ghost use Rattle.std.specs.Prelude.{[], false, OnOk};
ghost use Rattle.cr_core.specs.declared.form.Form.TheVariants as f;
ghost use Rattle.cr_making.specs.Made.{Makes};
ghost use Rattle.cr_making.specs.Knot.{Rewrites};
ghost use Rattle.cr_making.specs.Part as p;
ghost use Rattle.cr_making.specs.Terms as t;
ghost use Rattle.cr_making.specs.Table.{part, parts, maybe_part, own};

use cr_base::{NameId, NoMemory};
use cr_constructs::Constructs;
use cr_core::{Form, Local};
use cr_grammar::{Binary, Tree, Unary};
use cr_making::{
    Maker, View, Word, array_form, bare_form, call_form, hash_form, index_text, is_there, new_form,
    operator_text, sent_form, spawn_form, word_of,
};
use cr_syntax::TokenText;
use sqlite_items::{Boxed, Items};

/// The rewriting of terms, with that of the other constructs.
#[derive(Clone, Copy)]
pub struct Terms<F> {
    pub constructs: Constructs<F>,
}

impl<F: Fn(&mut Maker, usize, View, &Tree) -> Result<(), NoMemory>> Terms<F> {
    pub fn text(&self, maker: &mut Maker, at: u32, text: &TokenText) -> Result<(), NoMemory>
        requires { Rewrites self.now.constructs.rewriter.fuel (F.pre self.now.constructs.rewriter.rewrite) (F.post self.now.constructs.rewriter.rewrite) }
        ensures { OnOk result (Makes (t.text at text.now) maker.old maker.new) }
    {
        self.text_of(maker, at, text.as_str())
    }

    fn text_of(&self, maker: &mut Maker, at: u32, text: &str) -> Result<(), NoMemory>
        requires { Rewrites self.now.constructs.rewriter.fuel (F.pre self.now.constructs.rewriter.rewrite) (F.post self.now.constructs.rewriter.rewrite) }
        ensures { OnOk result (Makes (t.text at text.now) maker.old maker.new) }
    {
        let text = maker.literal(text)?;
        maker.leaf(Form::Text(text), at)?;
        Ok(())
    }

    // ---- calls

    /// A name alone: a local, or a call.
    fn name_alone(&self, maker: &mut Maker, at: u32, name: &TokenText) -> Result<(), NoMemory>
        requires { Rewrites self.now.constructs.rewriter.fuel (F.pre self.now.constructs.rewriter.rewrite) (F.post self.now.constructs.rewriter.rewrite) }
        ensures { OnOk result (Makes (t.name_alone at name.now) maker.old maker.new) }
    {
        let id = maker.token_name(name)?;
        let local = maker.found(id)?;
        self.local_or_alone(maker, at, name, id, local)?;
        Ok(())
    }

    fn local_or_alone(
        &self,
        maker: &mut Maker,
        at: u32,
        name: &TokenText,
        id: NameId,
        local: Option<Local>,
    ) -> Result<(), NoMemory>
        requires { Rewrites self.now.constructs.rewriter.fuel (F.pre self.now.constructs.rewriter.rewrite) (F.post self.now.constructs.rewriter.rewrite) }
        ensures { OnOk result (Makes (t.local_or_alone at name.now id local) maker.old maker.new) }
    {
        match local {
            Some(local) => maker.leaf(Form::Local(local), at),
            None => self.alone(maker, at, word_of(name.as_str()), id),
        }
    }

    fn alone(&self, maker: &mut Maker, at: u32, word: Word, id: NameId) -> Result<(), NoMemory>
        requires { Rewrites self.now.constructs.rewriter.fuel (F.pre self.now.constructs.rewriter.rewrite) (F.post self.now.constructs.rewriter.rewrite) }
        ensures { OnOk result (Makes (t.alone_by word at id) maker.old maker.new) }
    {
        match word {
            Word::Puts => self.empty_line(maker, at),
            Word::Raise => maker.leaf(bare_form(id), at),
            Word::NoWord => maker.leaf(bare_form(id), at),
        }
    }

    /// `puts` alone.
    fn empty_line(&self, maker: &mut Maker, at: u32) -> Result<(), NoMemory>
        requires { Rewrites self.now.constructs.rewriter.fuel (F.pre self.now.constructs.rewriter.rewrite) (F.post self.now.constructs.rewriter.rewrite) }
        ensures { OnOk result (Makes (t.empty_line at) maker.old maker.new) }
    {
        maker.open(Form::Puts, at)?;
        self.text_of(maker, at, "")?;
        maker.close()?;
        Ok(())
    }

    fn with_one(
        &self,
        maker: &mut Maker,
        at: u32,
        word: Word,
        name: &TokenText,
        argument: &Tree,
    ) -> Result<(), NoMemory>
        requires { Rewrites self.now.constructs.rewriter.fuel (F.pre self.now.constructs.rewriter.rewrite) (F.post self.now.constructs.rewriter.rewrite) }
        ensures { OnOk result (Makes (t.with_one_by word at name.now (part argument.now)) maker.old maker.new) }
    {
        match word {
            Word::Puts => self.around(maker, at, Form::Puts, argument),
            Word::Raise => self.around(maker, at, Form::Raise, argument),
            Word::NoWord => self.with_argument(maker, at, name, argument),
        }
    }

    /// A node with one part.
    fn around(
        &self,
        maker: &mut Maker,
        at: u32,
        form: Form,
        argument: &Tree,
    ) -> Result<(), NoMemory>
        requires { Rewrites self.now.constructs.rewriter.fuel (F.pre self.now.constructs.rewriter.rewrite) (F.post self.now.constructs.rewriter.rewrite) }
        ensures { OnOk result (Makes (t.around form at (part argument.now)) maker.old maker.new) }
    {
        maker.open(form, at)?;
        self.constructs.rewriter.one(maker, View::Term, argument)?;
        maker.close()?;
        Ok(())
    }

    fn with_argument(
        &self,
        maker: &mut Maker,
        at: u32,
        name: &TokenText,
        argument: &Tree,
    ) -> Result<(), NoMemory>
        requires { Rewrites self.now.constructs.rewriter.fuel (F.pre self.now.constructs.rewriter.rewrite) (F.post self.now.constructs.rewriter.rewrite) }
        ensures { OnOk result (Makes (t.called at name.now false false (part argument.now).own) maker.old maker.new) }
    {
        let name = maker.token_name(name)?;
        maker.open(bare_form(name), at)?;
        self.constructs.rewriter.one(maker, View::Term, argument)?;
        maker.close()?;
        Ok(())
    }

    fn with_arguments(
        &self,
        maker: &mut Maker,
        at: u32,
        name: &TokenText,
        arguments: &Items<Tree>,
    ) -> Result<(), NoMemory>
        requires { Rewrites self.now.constructs.rewriter.fuel (F.pre self.now.constructs.rewriter.rewrite) (F.post self.now.constructs.rewriter.rewrite) }
        ensures { OnOk result (Makes (t.called at name.now false false (p.terms (parts arguments.now))) maker.old maker.new) }
    {
        let name = maker.token_name(name)?;
        maker.open(bare_form(name), at)?;
        self.constructs.rewriter.each(maker, View::Term, arguments)?;
        maker.close()?;
        Ok(())
    }

    /// A call without receiver and block.
    fn bare_call(
        &self,
        maker: &mut Maker,
        at: u32,
        name: &TokenText,
        arguments: &Items<Tree>,
    ) -> Result<(), NoMemory>
        requires { Rewrites self.now.constructs.rewriter.fuel (F.pre self.now.constructs.rewriter.rewrite) (F.post self.now.constructs.rewriter.rewrite) }
        ensures { OnOk result (Makes (t.bare_call at name.now (parts arguments.now)) maker.old maker.new) }
    {
        match arguments.as_slice() {
            [] => self.name_alone(maker, at, name),
            [argument] => self.with_one(maker, at, word_of(name.as_str()), name, argument),
            _ => self.with_arguments(maker, at, name, arguments),
        }
    }

    fn with_block(
        &self,
        maker: &mut Maker,
        at: u32,
        receiver: &Option<Boxed<Tree>>,
        name: &TokenText,
        arguments: &Items<Tree>,
        block: &Option<Boxed<Tree>>,
    ) -> Result<(), NoMemory>
        requires { Rewrites self.now.constructs.rewriter.fuel (F.pre self.now.constructs.rewriter.rewrite) (F.post self.now.constructs.rewriter.rewrite) }
        ensures { OnOk result (Makes (t.full_call at (maybe_part receiver.now) name.now (parts arguments.now) (maybe_part block.now)) maker.old maker.new) }
    {
        let name = maker.token_name(name)?;
        maker.open(call_form(name, receiver, block), at)?;
        self.constructs.rewriter.maybe(maker, View::Term, receiver)?;
        self.constructs.rewriter.each(maker, View::Term, arguments)?;
        self.constructs
            .rewriter
            .maybe(maker, View::Block(at), block)?;
        maker.close()?;
        Ok(())
    }

    pub fn call(
        &self,
        maker: &mut Maker,
        at: u32,
        receiver: &Option<Boxed<Tree>>,
        name: &TokenText,
        arguments: &Items<Tree>,
        block: &Option<Boxed<Tree>>,
    ) -> Result<(), NoMemory>
        requires { Rewrites self.now.constructs.rewriter.fuel (F.pre self.now.constructs.rewriter.rewrite) (F.post self.now.constructs.rewriter.rewrite) }
        ensures { OnOk result (Makes (t.call at (maybe_part receiver.now) name.now (parts arguments.now) (maybe_part block.now)) maker.old maker.new) }
    {
        if !is_there(receiver) && !is_there(block) {
            return self.bare_call(maker, at, name, arguments);
        }
        self.with_block(maker, at, receiver, name, arguments, block)
    }

    pub fn index(
        &self,
        maker: &mut Maker,
        at: u32,
        receiver: &Boxed<Tree>,
        arguments: &Items<Tree>,
        question: bool,
    ) -> Result<(), NoMemory>
        requires { Rewrites self.now.constructs.rewriter.fuel (F.pre self.now.constructs.rewriter.rewrite) (F.post self.now.constructs.rewriter.rewrite) }
        ensures { OnOk result (Makes (t.index at (part receiver.now) (parts arguments.now) question) maker.old maker.new) }
    {
        let name = maker.name(index_text(question))?;
        maker.open(sent_form(name), at)?;
        self.constructs.rewriter.term(maker, receiver)?;
        self.constructs.rewriter.each(maker, View::Term, arguments)?;
        maker.close()?;
        Ok(())
    }

    // ---- operators

    pub fn binary(
        &self,
        maker: &mut Maker,
        at: u32,
        operator: Binary,
        left: &Boxed<Tree>,
        right: &Boxed<Tree>,
    ) -> Result<(), NoMemory>
        requires { Rewrites self.now.constructs.rewriter.fuel (F.pre self.now.constructs.rewriter.rewrite) (F.post self.now.constructs.rewriter.rewrite) }
        ensures { OnOk result (Makes (t.binary at operator (part left.now) (part right.now)) maker.old maker.new) }
    {
        match operator {
            Binary::And => self.both(maker, at, Form::And, left, right),
            Binary::Or => self.both(maker, at, Form::Or, left, right),
            Binary::NotEqual => self.not_equal(maker, at, left, right),
            _ => self.operation(maker, at, operator_text(operator), left, right),
        }
    }

    fn not_equal(
        &self,
        maker: &mut Maker,
        at: u32,
        left: &Boxed<Tree>,
        right: &Boxed<Tree>,
    ) -> Result<(), NoMemory>
        requires { Rewrites self.now.constructs.rewriter.fuel (F.pre self.now.constructs.rewriter.rewrite) (F.post self.now.constructs.rewriter.rewrite) }
        ensures { OnOk result (Makes (t.not_equal at (part left.now) (part right.now)) maker.old maker.new) }
    {
        maker.open(Form::Not, at)?;
        self.operation(maker, at, "==", left, right)?;
        maker.close()?;
        Ok(())
    }

    fn both(
        &self,
        maker: &mut Maker,
        at: u32,
        form: Form,
        left: &Boxed<Tree>,
        right: &Boxed<Tree>,
    ) -> Result<(), NoMemory>
        requires { Rewrites self.now.constructs.rewriter.fuel (F.pre self.now.constructs.rewriter.rewrite) (F.post self.now.constructs.rewriter.rewrite) }
        ensures { OnOk result (Makes (t.both form at (part left.now) (part right.now)) maker.old maker.new) }
    {
        maker.open(form, at)?;
        self.constructs.rewriter.term(maker, left)?;
        self.constructs.rewriter.term(maker, right)?;
        maker.close()?;
        Ok(())
    }

    fn operation(
        &self,
        maker: &mut Maker,
        at: u32,
        name: &str,
        left: &Boxed<Tree>,
        right: &Boxed<Tree>,
    ) -> Result<(), NoMemory>
        requires { Rewrites self.now.constructs.rewriter.fuel (F.pre self.now.constructs.rewriter.rewrite) (F.post self.now.constructs.rewriter.rewrite) }
        ensures { OnOk result (Makes (t.operation at name.now (part left.now) (part right.now)) maker.old maker.new) }
    {
        let name = maker.name(name)?;
        maker.open(sent_form(name), at)?;
        self.constructs.rewriter.term(maker, left)?;
        self.constructs.rewriter.term(maker, right)?;
        maker.close()?;
        Ok(())
    }

    pub fn unary(
        &self,
        maker: &mut Maker,
        at: u32,
        operator: Unary,
        operand: &Boxed<Tree>,
    ) -> Result<(), NoMemory>
        requires { Rewrites self.now.constructs.rewriter.fuel (F.pre self.now.constructs.rewriter.rewrite) (F.post self.now.constructs.rewriter.rewrite) }
        ensures { OnOk result (Makes (t.unary at operator (part operand.now)) maker.old maker.new) }
    {
        match operator {
            Unary::Not => self.not(maker, at, operand),
            Unary::Negate => self.negate(maker, at, operand),
        }
    }

    fn not(&self, maker: &mut Maker, at: u32, operand: &Boxed<Tree>) -> Result<(), NoMemory>
        requires { Rewrites self.now.constructs.rewriter.fuel (F.pre self.now.constructs.rewriter.rewrite) (F.post self.now.constructs.rewriter.rewrite) }
        ensures { OnOk result (Makes (t.around f.Not at (part operand.now)) maker.old maker.new) }
    {
        maker.open(Form::Not, at)?;
        self.constructs.rewriter.term(maker, operand)?;
        maker.close()?;
        Ok(())
    }

    fn negate(&self, maker: &mut Maker, at: u32, operand: &Boxed<Tree>) -> Result<(), NoMemory>
        requires { Rewrites self.now.constructs.rewriter.fuel (F.pre self.now.constructs.rewriter.rewrite) (F.post self.now.constructs.rewriter.rewrite) }
        ensures { OnOk result (Makes (t.negate at (part operand.now)) maker.old maker.new) }
    {
        let name = maker.name("-")?;
        maker.open(sent_form(name), at)?;
        self.constructs.rewriter.term(maker, operand)?;
        maker.close()?;
        Ok(())
    }

    // ---- types

    fn atom(
        &self,
        maker: &mut Maker,
        at: u32,
        path: &Items<TokenText>,
        arguments: &Items<Tree>,
    ) -> Result<(), NoMemory>
        requires { Rewrites self.now.constructs.rewriter.fuel (F.pre self.now.constructs.rewriter.rewrite) (F.post self.now.constructs.rewriter.rewrite) }
        ensures { OnOk result (Makes (t.atom at path.now (parts arguments.now)) maker.old maker.new) }
    {
        let name = maker.path_name(path)?;
        maker.open(Form::Atom(name), at)?;
        self.constructs
            .rewriter
            .each(maker, View::Union(at), arguments)?;
        maker.close()?;
        Ok(())
    }

    pub fn nil_atom(&self, maker: &mut Maker, at: u32) -> Result<(), NoMemory>
        requires { Rewrites self.now.constructs.rewriter.fuel (F.pre self.now.constructs.rewriter.rewrite) (F.post self.now.constructs.rewriter.rewrite) }
        ensures { OnOk result (Makes (t.nil_atom at) maker.old maker.new) }
    {
        let name = maker.name("Nil")?;
        maker.leaf(Form::Atom(name), at)?;
        Ok(())
    }

    /// A written type, by its atoms.
    pub fn atoms(&self, maker: &mut Maker, tree: &Tree) -> Result<(), NoMemory>
        requires { Rewrites self.now.constructs.rewriter.fuel (F.pre self.now.constructs.rewriter.rewrite) (F.post self.now.constructs.rewriter.rewrite) }
        ensures { OnOk result (Makes ((part tree.now).atoms) maker.old maker.new) }
    {
        match tree {
            Tree::Union { atoms } => self.constructs.rewriter.each(maker, View::Atoms, atoms),
            Tree::Atom {
                at,
                path,
                arguments,
            } => self.atom(maker, *at, path, arguments),
            _ => Ok(()),
        }
    }

    /// The class before `new`.
    pub fn class_of(&self, maker: &mut Maker, tree: &Tree) -> Result<(), NoMemory>
        requires { Rewrites self.now.constructs.rewriter.fuel (F.pre self.now.constructs.rewriter.rewrite) (F.post self.now.constructs.rewriter.rewrite) }
        ensures { OnOk result (Makes ((part tree.now).class) maker.old maker.new) }
    {
        match tree {
            Tree::Atom {
                at,
                path,
                arguments,
            } => self.atom(maker, *at, path, arguments),
            _ => self.nil_atom(maker, 0),
        }
    }

    /// A written type of the construct at this place.
    pub fn union(&self, maker: &mut Maker, at: u32, tree: &Tree) -> Result<(), NoMemory>
        requires { Rewrites self.now.constructs.rewriter.fuel (F.pre self.now.constructs.rewriter.rewrite) (F.post self.now.constructs.rewriter.rewrite) }
        ensures { OnOk result (Makes (p.union at (part tree.now)) maker.old maker.new) }
    {
        maker.open(Form::Union, at)?;
        self.atoms(maker, tree)?;
        maker.close()?;
        Ok(())
    }

    pub fn is_nil(&self, maker: &mut Maker, at: u32, value: &Boxed<Tree>) -> Result<(), NoMemory>
        requires { Rewrites self.now.constructs.rewriter.fuel (F.pre self.now.constructs.rewriter.rewrite) (F.post self.now.constructs.rewriter.rewrite) }
        ensures { OnOk result (Makes (t.is_nil at (part value.now)) maker.old maker.new) }
    {
        maker.open(Form::IsA, at)?;
        self.constructs.rewriter.term(maker, value)?;
        self.nil_atom(maker, at)?;
        maker.close()?;
        Ok(())
    }

    pub fn is_a(
        &self,
        maker: &mut Maker,
        at: u32,
        value: &Boxed<Tree>,
        of: &Boxed<Tree>,
    ) -> Result<(), NoMemory>
        requires { Rewrites self.now.constructs.rewriter.fuel (F.pre self.now.constructs.rewriter.rewrite) (F.post self.now.constructs.rewriter.rewrite) }
        ensures { OnOk result (Makes (t.is_a at (part value.now) (part of.now)) maker.old maker.new) }
    {
        maker.open(Form::IsA, at)?;
        self.constructs.rewriter.term(maker, value)?;
        self.constructs.rewriter.boxed(maker, View::Atoms, of)?;
        maker.close()?;
        Ok(())
    }

    // ---- what makes a value

    pub fn field(&self, maker: &mut Maker, at: u32, name: &TokenText) -> Result<(), NoMemory>
        requires { Rewrites self.now.constructs.rewriter.fuel (F.pre self.now.constructs.rewriter.rewrite) (F.post self.now.constructs.rewriter.rewrite) }
        ensures { OnOk result (Makes (t.field at name.now) maker.old maker.new) }
    {
        let name = maker.variable(name)?;
        maker.leaf(Form::Field(name), at)?;
        Ok(())
    }

    pub fn new_(
        &self,
        maker: &mut Maker,
        at: u32,
        class: &Boxed<Tree>,
        question: bool,
        arguments: &Items<Tree>,
        block: &Option<Boxed<Tree>>,
    ) -> Result<(), NoMemory>
        requires { Rewrites self.now.constructs.rewriter.fuel (F.pre self.now.constructs.rewriter.rewrite) (F.post self.now.constructs.rewriter.rewrite) }
        ensures { OnOk result (Makes (t.new at (part class.now) question (parts arguments.now) (maybe_part block.now)) maker.old maker.new) }
    {
        maker.open(new_form(question, block), at)?;
        self.constructs.rewriter.boxed(maker, View::Class, class)?;
        self.constructs.rewriter.each(maker, View::Term, arguments)?;
        self.constructs
            .rewriter
            .maybe(maker, View::Block(at), block)?;
        maker.close()?;
        Ok(())
    }

    pub fn array(
        &self,
        maker: &mut Maker,
        at: u32,
        elements: &Items<Tree>,
        element: &Option<Boxed<Tree>>,
    ) -> Result<(), NoMemory>
        requires { Rewrites self.now.constructs.rewriter.fuel (F.pre self.now.constructs.rewriter.rewrite) (F.post self.now.constructs.rewriter.rewrite) }
        ensures { OnOk result (Makes (t.array at (parts elements.now) (maybe_part element.now)) maker.old maker.new) }
    {
        maker.open(array_form(element), at)?;
        self.constructs.rewriter.each(maker, View::Term, elements)?;
        self.constructs
            .rewriter
            .maybe(maker, View::Union(at), element)?;
        maker.close()?;
        Ok(())
    }

    pub fn hash(
        &self,
        maker: &mut Maker,
        at: u32,
        entries: &Items<Tree>,
        entry: &Option<Boxed<Tree>>,
    ) -> Result<(), NoMemory>
        requires { Rewrites self.now.constructs.rewriter.fuel (F.pre self.now.constructs.rewriter.rewrite) (F.post self.now.constructs.rewriter.rewrite) }
        ensures { OnOk result (Makes (t.hash at (parts entries.now) (maybe_part entry.now)) maker.old maker.new) }
    {
        maker.open(hash_form(entry), at)?;
        self.constructs.rewriter.each(maker, View::Pair, entries)?;
        self.constructs
            .rewriter
            .maybe(maker, View::PairTypes(at), entry)?;
        maker.close()?;
        Ok(())
    }

    /// An entry of a hash.
    pub fn pair(&self, maker: &mut Maker, tree: &Tree) -> Result<(), NoMemory>
        requires { Rewrites self.now.constructs.rewriter.fuel (F.pre self.now.constructs.rewriter.rewrite) (F.post self.now.constructs.rewriter.rewrite) }
        ensures { OnOk result (Makes ((part tree.now).pair) maker.old maker.new) }
    {
        match tree {
            Tree::Pair { key, value } => self.two(maker, key, value),
            _ => Ok(()),
        }
    }

    fn two(&self, maker: &mut Maker, key: &Boxed<Tree>, value: &Boxed<Tree>) -> Result<(), NoMemory>
        requires { Rewrites self.now.constructs.rewriter.fuel (F.pre self.now.constructs.rewriter.rewrite) (F.post self.now.constructs.rewriter.rewrite) }
        ensures { OnOk result (Makes (t.two (part key.now) (part value.now)) maker.old maker.new) }
    {
        self.constructs.rewriter.term(maker, key)?;
        self.constructs.rewriter.term(maker, value)?;
        Ok(())
    }

    fn two_unions(
        &self,
        maker: &mut Maker,
        at: u32,
        key: &Boxed<Tree>,
        value: &Boxed<Tree>,
    ) -> Result<(), NoMemory>
        requires { Rewrites self.now.constructs.rewriter.fuel (F.pre self.now.constructs.rewriter.rewrite) (F.post self.now.constructs.rewriter.rewrite) }
        ensures { OnOk result (Makes (t.two_unions at (part key.now) (part value.now)) maker.old maker.new) }
    {
        self.constructs.rewriter.boxed(maker, View::Union(at), key)?;
        self.constructs
            .rewriter
            .boxed(maker, View::Union(at), value)?;
        Ok(())
    }

    fn no_unions(&self, maker: &mut Maker, at: u32) -> Result<(), NoMemory>
        requires { Rewrites self.now.constructs.rewriter.fuel (F.pre self.now.constructs.rewriter.rewrite) (F.post self.now.constructs.rewriter.rewrite) }
        ensures { OnOk result (Makes (t.no_unions at) maker.old maker.new) }
    {
        maker.leaf(Form::Union, at)?;
        maker.leaf(Form::Union, at)?;
        Ok(())
    }

    /// The types of the entries of the hash at this place.
    pub fn pair_types(&self, maker: &mut Maker, at: u32, tree: &Tree) -> Result<(), NoMemory>
        requires { Rewrites self.now.constructs.rewriter.fuel (F.pre self.now.constructs.rewriter.rewrite) (F.post self.now.constructs.rewriter.rewrite) }
        ensures { OnOk result (Makes ((part tree.now).pair_types at) maker.old maker.new) }
    {
        match tree {
            Tree::Pair { key, value } => self.two_unions(maker, at, key, value),
            _ => self.no_unions(maker, at),
        }
    }

    // ---- blocks, and what calls and begins them

    /// The block of the construct at this place.
    pub fn block_of(&self, maker: &mut Maker, at: u32, tree: &Tree) -> Result<(), NoMemory>
        requires { Rewrites self.now.constructs.rewriter.fuel (F.pre self.now.constructs.rewriter.rewrite) (F.post self.now.constructs.rewriter.rewrite) }
        ensures { OnOk result (Makes ((part tree.now).block at) maker.old maker.new) }
    {
        match tree {
            Tree::Block { parameters, body } => self.block(maker, at, parameters, body),
            _ => self.empty_block(maker, at),
        }
    }

    fn block(
        &self,
        maker: &mut Maker,
        at: u32,
        parameters: &Items<Tree>,
        body: &Items<Tree>,
    ) -> Result<(), NoMemory>
        requires { Rewrites self.now.constructs.rewriter.fuel (F.pre self.now.constructs.rewriter.rewrite) (F.post self.now.constructs.rewriter.rewrite) }
        ensures { OnOk result (Makes (t.block at (parts parameters.now) (parts body.now)) maker.old maker.new) }
    {
        let scope = maker.enter()?;
        maker.open(Form::Block(scope), at)?;
        self.constructs
            .rewriter
            .each(maker, View::Parameter, parameters)?;
        self.constructs.rewriter.statements(maker, at, body)?;
        maker.close()?;
        maker.leave();
        Ok(())
    }

    pub fn spawn(
        &self,
        maker: &mut Maker,
        at: u32,
        context: &Option<Boxed<Tree>>,
        body: &Items<Tree>,
    ) -> Result<(), NoMemory>
        requires { Rewrites self.now.constructs.rewriter.fuel (F.pre self.now.constructs.rewriter.rewrite) (F.post self.now.constructs.rewriter.rewrite) }
        ensures { OnOk result (Makes (t.spawn at (maybe_part context.now) (parts body.now)) maker.old maker.new) }
    {
        maker.open(spawn_form(context), at)?;
        self.constructs.rewriter.maybe(maker, View::Term, context)?;
        self.plain_block(maker, at, body)?;
        maker.close()?;
        Ok(())
    }

    fn empty_block(&self, maker: &mut Maker, at: u32) -> Result<(), NoMemory>
        requires { Rewrites self.now.constructs.rewriter.fuel (F.pre self.now.constructs.rewriter.rewrite) (F.post self.now.constructs.rewriter.rewrite) }
        ensures { OnOk result (Makes (t.block at [] []) maker.old maker.new) }
    {
        let none = Items::new(maker.naming.alloc);
        self.plain_block(maker, at, &none)
    }

    /// A block without parameters.
    fn plain_block(&self, maker: &mut Maker, at: u32, body: &Items<Tree>) -> Result<(), NoMemory>
        requires { Rewrites self.now.constructs.rewriter.fuel (F.pre self.now.constructs.rewriter.rewrite) (F.post self.now.constructs.rewriter.rewrite) }
        ensures { OnOk result (Makes (t.block at [] (parts body.now)) maker.old maker.new) }
    {
        let none = Items::new(maker.naming.alloc);
        self.block(maker, at, &none, body)
    }

    pub fn yield_(
        &self,
        maker: &mut Maker,
        at: u32,
        arguments: &Items<Tree>,
    ) -> Result<(), NoMemory>
        requires { Rewrites self.now.constructs.rewriter.fuel (F.pre self.now.constructs.rewriter.rewrite) (F.post self.now.constructs.rewriter.rewrite) }
        ensures { OnOk result (Makes (t.yield at (parts arguments.now)) maker.old maker.new) }
    {
        maker.open(Form::Yield, at)?;
        self.constructs.rewriter.each(maker, View::Term, arguments)?;
        maker.close()?;
        Ok(())
    }

    pub fn super_(
        &self,
        maker: &mut Maker,
        at: u32,
        arguments: &Items<Tree>,
    ) -> Result<(), NoMemory>
        requires { Rewrites self.now.constructs.rewriter.fuel (F.pre self.now.constructs.rewriter.rewrite) (F.post self.now.constructs.rewriter.rewrite) }
        ensures { OnOk result (Makes (t.super at (parts arguments.now)) maker.old maker.new) }
    {
        maker.open(Form::Super, at)?;
        self.constructs.rewriter.each(maker, View::Term, arguments)?;
        maker.close()?;
        Ok(())
    }

    /// `super` alone, which passes the parameters on.
    pub fn bare_super(&self, maker: &mut Maker, at: u32) -> Result<(), NoMemory>
        requires { Rewrites self.now.constructs.rewriter.fuel (F.pre self.now.constructs.rewriter.rewrite) (F.post self.now.constructs.rewriter.rewrite) }
        ensures { OnOk result (Makes (t.bare_super at) maker.old maker.new) }
    {
        let passed = maker.passed()?;
        maker.open(Form::Super, at)?;
        self.constructs
            .rewriter
            .locals(maker, at, passed.first, passed.count)?;
        maker.close()?;
        Ok(())
    }
}
