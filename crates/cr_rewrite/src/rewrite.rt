//! The core form of each construct, as a walk round it.

ghost use Rattle.std.specs.Prelude.{OnOk};
ghost use Rattle.cr_making.specs.Made.{Makes};
ghost use Rattle.cr_making.specs.Knot.{Rewrites};
ghost use Rattle.cr_making.specs.View.{viewed};
ghost use Rattle.cr_making.specs.Table.{part, own};

use crate::terms::Terms;
use cr_base::NoMemory;
use cr_constructs::Constructs;
use cr_core::Form;
use cr_grammar::Tree;
use cr_making::{Maker, Rewriter, View};

impl<F: Fn(&mut Maker, usize, View, &Tree) -> Result<(), NoMemory>> Terms<F> {
    /// What the construct is as a term.
    fn own(&self, maker: &mut Maker, tree: &Tree) -> Result<(), NoMemory>
        requires { Rewrites self.now.constructs.rewriter.fuel (F.pre self.now.constructs.rewriter.rewrite) (F.post self.now.constructs.rewriter.rewrite) }
        ensures { OnOk result (Makes (own tree.now) maker.old maker.new) }
    {
        match tree {
            Tree::Nil { at } => maker.leaf(Form::Nil, *at),
            Tree::True { at } => maker.leaf(Form::True, *at),
            Tree::False { at } => maker.leaf(Form::False, *at),
            Tree::Int32 { at, value } => maker.leaf(Form::Int32(*value), *at),
            Tree::Int64 { at, value } => maker.leaf(Form::Int64(*value), *at),
            Tree::Text { at, text } => self.text(maker, *at, text),
            Tree::Insertions {
                at,
                parts,
                inserted,
            } => self.insertions(maker, *at, parts, inserted),
            Tree::KeywordSelf { at } => maker.leaf(Form::KeywordSelf, *at),
            Tree::InstanceVariable { at, name } => self.field(maker, *at, name),
            Tree::Array {
                at,
                elements,
                element,
            } => self.array(maker, *at, elements, element),
            Tree::Hash { at, entries, entry } => self.hash(maker, *at, entries, entry),
            Tree::Call {
                at,
                receiver,
                name,
                arguments,
                block,
            } => self.call(maker, *at, receiver, name, arguments, block),
            Tree::Index {
                at,
                receiver,
                arguments,
                question,
            } => self.index(maker, *at, receiver, arguments, *question),
            Tree::Binary {
                at,
                operator,
                left,
                right,
            } => self.binary(maker, *at, *operator, left, right),
            Tree::Unary {
                at,
                operator,
                operand,
            } => self.unary(maker, *at, *operator, operand),
            Tree::IsNil { at, value } => self.is_nil(maker, *at, value),
            Tree::IsA { at, value, of } => self.is_a(maker, *at, value, of),
            Tree::New {
                at,
                class,
                question,
                arguments,
                block,
            } => self.new_(maker, *at, class, *question, arguments, block),
            Tree::Pause { at } => maker.leaf(Form::Pause, *at),
            Tree::Yield { at, arguments } => self.yield_(maker, *at, arguments),
            Tree::Super { at, arguments } => self.super_(maker, *at, arguments),
            Tree::BareSuper { at } => self.bare_super(maker, *at),
            Tree::Spawn { at, context, body } => self.spawn(maker, *at, context, body),
            Tree::If {
                at,
                unless,
                condition,
                body,
                others,
                otherwise,
            } => self
                .constructs
                .conditional(maker, *at, *unless, condition, body, others, otherwise),
            Tree::While {
                at,
                until,
                condition,
                body,
            } => self.constructs.repeat(maker, *at, *until, condition, body),
            Tree::Case { at, value, clauses } => self.constructs.case(maker, *at, value, clauses),
            Tree::Select {
                at,
                clauses,
                otherwise,
            } => self.constructs.select(maker, *at, clauses, otherwise),
            Tree::Assign {
                at,
                target,
                operator,
                operator_at,
                value,
            } => self
                .constructs
                .assign(maker, *at, target, *operator, *operator_at, value),
            Tree::Return { at, value } => self.constructs.jump(maker, Form::Return, *at, value),
            Tree::Next { at, value } => self.constructs.jump(maker, Form::Next, *at, value),
            Tree::Break { at } => maker.leaf(Form::Break, *at),
            Tree::Statements { .. } => maker.leaf(Form::Nil, 0),
            Tree::Union { .. } => maker.leaf(Form::Nil, 0),
            Tree::Block { .. } => maker.leaf(Form::Nil, 0),
            Tree::Pair { .. } => maker.leaf(Form::Nil, 0),
            Tree::Branch { .. } => maker.leaf(Form::Nil, 0),
            Tree::In { .. } => maker.leaf(Form::Nil, 0),
            Tree::When { .. } => maker.leaf(Form::Nil, 0),
            Tree::Atom { .. } => maker.leaf(Form::Nil, 0),
            Tree::Parameter { .. } => maker.leaf(Form::Nil, 0),
            Tree::Class { .. } => maker.leaf(Form::Nil, 0),
            Tree::Module { .. } => maker.leaf(Form::Nil, 0),
            Tree::Include { .. } => maker.leaf(Form::Nil, 0),
            Tree::Declaration { .. } => maker.leaf(Form::Nil, 0),
            Tree::Accessors { .. } => maker.leaf(Form::Nil, 0),
            Tree::Accessor { .. } => maker.leaf(Form::Nil, 0),
            Tree::Def { .. } => maker.leaf(Form::Nil, 0),
        }
    }

    /// What the construct is in its place.
    fn construct(&self, maker: &mut Maker, view: View, tree: &Tree) -> Result<(), NoMemory>
        requires { Rewrites self.now.constructs.rewriter.fuel (F.pre self.now.constructs.rewriter.rewrite) (F.post self.now.constructs.rewriter.rewrite) }
        ensures { OnOk result (Makes (viewed view (part tree.now)) maker.old maker.new) }
    {
        match view {
            View::Term => self.own(maker, tree),
            View::Member => self.constructs.members(maker, tree),
            View::Atoms => self.atoms(maker, tree),
            View::Class => self.class_of(maker, tree),
            View::Parameter => self.constructs.parameter_of(maker, tree),
            View::Fields => self.constructs.fields(maker, tree),
            View::Kept => self.constructs.kept_of(maker, tree),
            View::Union(at) => self.union(maker, at, tree),
            View::Block(at) => self.block_of(maker, at, tree),
            View::Branch => self.constructs.branch_of(maker, tree),
            View::Arm(get) => self.constructs.arm_of(maker, get, tree),
            View::Clause => self.constructs.clause(maker, tree),
            View::Pair => self.pair(maker, tree),
            View::PairTypes(at) => self.pair_types(maker, at, tree),
            View::Accessor(property) => self.constructs.accessor_of(maker, property, tree),
        }
    }
}

/// What the construct is in its place, where it nests less than so deep.
pub fn rewrite(maker: &mut Maker, fuel: usize, view: View, tree: &Tree) -> Result<(), NoMemory>
    ensures { OnOk result (Makes (viewed view (part tree.now)) maker.old maker.new) }
{
    if fuel == 0 {
        return Err(NoMemory);
    }
    let rewriter = Rewriter {
        fuel: fuel - 1,
        rewrite,
    };
    let constructs = Constructs { rewriter };
    Terms { constructs }.construct(maker, view, tree)
}
