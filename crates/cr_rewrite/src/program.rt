//! The core form of a program with its prelude.

ghost use Rattle.std.specs.Prelude.{◌≡◌, map, length, [], OnOk, IfOk};
ghost use Rattle.cr_core.specs.declared.form.Form.TheVariants as f;
ghost use Rattle.cr_making.specs.Made.{Makes, Nests};
ghost use Rattle.cr_making.specs.Making.{Making, ahead, in_prelude};
ghost use Rattle.cr_making.specs.Naming as n;
ghost use Rattle.cr_making.specs.Part.{members_of, statements_of};
ghost use Rattle.cr_making.specs.Table.{part, parts};
ghost use Rattle.cr_making.specs.View.{said_line};
ghost use Rattle.cr_making.specs.declared.view.View.TheVariants as v;
ghost use Rattle.cr_rewrite.specs.Whole.{IsRewriting, program, begin};

use crate::rewrite::rewrite;
use crate::rewritten::Rewritten;
use cr_base::NoMemory;
use cr_core::{Form, ScopeId, link};
use cr_grammar::Tree;
use cr_making::{Maker, Naming, Opened, Rewriter, Slots, View, said, settle};
use cr_syntax::Names;
use std::alloc::Global;

/// So many constructs may stand in one another. A tree of the parser has 200 at most.
const DEPTH: usize = 1000;

/// Nothing is rewritten yet, and the top level's scope is open.
fn start(alloc: Global) -> Result<Maker, NoMemory>
    ensures events { IfOk result (λ maker. maker.events.items ≡ []) }
    ensures state { IfOk result (λ maker. n.state_of maker.naming ≡ begin) }
{
    let mut scopes = Vec::new(alloc);
    scopes.push(Slots::new(alloc))?;
    let inner = Opened {
        number: ScopeId(0),
        slots: Slots::new(alloc),
        parameters: 0,
    };
    let naming = Naming {
        alloc,
        names: Names::new(alloc),
        texts: Names::new(alloc),
        scopes,
        inner,
        around: Vec::new(alloc),
        prelude: false,
    };
    Ok(Maker {
        events: Vec::new(alloc),
        naming,
    })
}

/// The constructs of a list of statements. Any other construct has none.
fn list_of(tree: &Tree) -> &[Tree]
    ensures members { members_of (parts result.now) ≡ (part tree.now).list_members }
    ensures statements { statements_of (parts result.now) ≡ (part tree.now).list_statements }
{
    match tree {
        Tree::Statements { list } => list.as_slice(),
        _ => &[],
    }
}

fn members(maker: &mut Maker, list: &[Tree]) -> Result<(), NoMemory>
    ensures { OnOk result (Makes (members_of (parts list.now)) maker.old maker.new) }
{
    for tree in list {
        rewrite(maker, DEPTH, View::Member, tree)?;
    }
    Ok(())
}

/// The prelude's statements, each ahead of another. Gives how many they are.
fn prelude_statements(maker: &mut Maker, list: &[Tree]) -> Result<usize, NoMemory>
    ensures made { OnOk result (Nests f.Seq (map (λ (m : Making). ahead 0 (in_prelude m)) (statements_of (parts list.now))) maker.old maker.new) }
    ensures count { IfOk result (λ count. count ≡ length (statements_of (parts list.now))) }
{
    let mut count = 0;
    for tree in list {
        count += prelude_statement(maker, tree)?;
    }
    Ok(count)
}

/// A construct of the prelude, where it is a statement. Gives how many nodes it began.
fn prelude_statement(maker: &mut Maker, tree: &Tree) -> Result<usize, NoMemory>
    ensures made { OnOk result (Nests f.Seq (map (λ (m : Making). ahead 0 (in_prelude m)) (said_line v.Term (part tree.now))) maker.old maker.new) }
    ensures count { IfOk result (λ count. count ≡ length (said_line v.Term (part tree.now))) }
{
    if !said(View::Term, tree) {
        return Ok(0);
    }
    maker.open(Form::Seq, 0)?;
    maker.turn(true);
    rewrite(maker, DEPTH, View::Term, tree)?;
    maker.turn(false);
    Ok(1)
}

fn whole(maker: &mut Maker, prelude: &Tree, source: &Tree) -> Result<(), NoMemory>
    ensures { OnOk result (Makes (program (part prelude.now) (part source.now)) maker.old maker.new) }
{
    let rewriter = Rewriter {
        fuel: DEPTH,
        rewrite,
    };
    let before = list_of(prelude);
    let list = list_of(source);
    maker.open(Form::Program(ScopeId(0)), 0)?;
    maker.turn(true);
    members(maker, before)?;
    maker.turn(false);
    members(maker, list)?;
    let opened = prelude_statements(maker, before)?;
    rewriter.sequence(maker, 0, View::Term, list)?;
    maker.close_all(opened)?;
    maker.close()?;
    Ok(())
}

/// The rows of the core form of a program with its prelude, and the names, texts and locals behind them. Takes `NoMemory` for
/// constructs that stand in one another more than a thousand times.
pub fn rewrite_program(alloc: Global, prelude: &Tree, tree: &Tree) -> Result<Rewritten, NoMemory>
    ensures { IfOk result (λ rewritten. IsRewriting prelude.now tree.now rewritten) }
{
    let mut maker = start(alloc)?;
    whole(&mut maker, prelude, tree)?;
    let Maker { events, naming } = maker;
    let rows = link(alloc, events.as_slice())?;
    let Naming {
        alloc: _,
        names,
        texts,
        mut scopes,
        inner,
        around: _,
        prelude: _,
    } = naming;
    settle(&mut scopes, inner);
    Ok(Rewritten {
        rows,
        scopes,
        names,
        texts,
    })
}
