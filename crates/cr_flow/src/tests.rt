ghost use Rattle.std.specs.Prelude.{IfOk};
ghost use Rattle.cr_flow.specs.Chain.{IsForward};

use super::capture::flagged;
use super::reach::reach;
use super::*;
use cr_base::{NameId, NoMemory, NodeId};
use cr_core::Event::{Close, Open};
use cr_core::{
    CoreTree, Event, Form, Listed, Local, Place, Row, Scope, ScopeId, ScopeKind, Slot, TextId, link,
};
use cr_syntax::Names;
use std::alloc::Global;
use std::test::Fail;

// `include x` in the prelude, and `x = "a"`.
fn sample(alloc: Global) -> Result<CoreTree, NoMemory> {
    let local = Local {
        scope: ScopeId(0),
        slot: 0,
        up: 0,
    };
    let events = [
        Event::Open(
            Form::Program(ScopeId(0)),
            Place {
                prelude: false,
                at: 0,
            },
        ),
        Event::Open(
            Form::Include(NameId(0)),
            Place {
                prelude: true,
                at: 5,
            },
        ),
        Event::Close,
        Event::Open(
            Form::Set(local),
            Place {
                prelude: false,
                at: 0,
            },
        ),
        Event::Open(
            Form::Text(TextId(0)),
            Place {
                prelude: false,
                at: 4,
            },
        ),
        Event::Close,
        Event::Close,
        Event::Close,
    ];
    let rows = link(alloc, &events)?;
    let mut names = Names::new(alloc);
    names.intern("x")?;
    let mut texts = Names::new(alloc);
    texts.intern("a")?;
    let mut slots = Listed::new(alloc);
    slots.push(Slot {
        name: Some(NameId(0)),
        captured: false,
    })?;
    let mut scopes = Vec::new(alloc);
    scopes.push(Scope {
        kind: ScopeKind::Main,
        home: None,
        site: NodeId(0),
        body: NodeId(2),
        parameters: 0,
        slots,
    })?;
    Ok(CoreTree::new(rows, scopes, names, texts))
}

fn local_before(tree: &CoreTree, node: u32) -> bool {
    let x = Variable::Local {
        scope: ScopeId(0),
        slot: 0,
    };
    tree.scope_count() > 0 && assigned_before(tree, ScopeId(0), x, NodeId(node))
}

fn field_before(tree: &CoreTree, node: u32) -> bool {
    tree.scope_count() > 0
        && assigned_before(tree, ScopeId(0), Variable::Field(NameId(0)), NodeId(node))
}

fn local_at_end(tree: &CoreTree) -> bool {
    let x = Variable::Local {
        scope: ScopeId(0),
        slot: 0,
    };
    tree.scope_count() > 0 && assigned_at_end(tree, ScopeId(0), x)
}

fn field_at_end(tree: &CoreTree) -> bool {
    tree.scope_count() > 0 && assigned_at_end(tree, ScopeId(0), Variable::Field(NameId(0)))
}

fn captured_count(alloc: Global, tree: &CoreTree) -> Result<usize, NoMemory> {
    if tree.scope_count() > 0 {
        Ok(captured(alloc, tree, ScopeId(0))?.len())
    } else {
        Ok(1)
    }
}

#[test]
fn ways_through_an_assignment(rt: HostRuntime) -> Result<(), Fail> {
    let tree = sample(rt.alloc())?;
    // A node, whether the local and whether the instance variable is assigned before it acts. No way comes to the program.
    for (node, local, field) in [(2, false, false), (3, false, false), (0, true, true)] {
        assert_eq!(rt; local_before(&tree, node), local);
        assert_eq!(rt; field_before(&tree, node), field);
    }
    assert!(rt; local_at_end(&tree));
    assert!(rt; !field_at_end(&tree));
    assert_eq!(rt; captured_count(rt.alloc(), &tree)?, 0);
    Ok(())
}

const AT: Place = Place {
    prelude: false,
    at: 0,
};

// Nodes one beside the other, whose variable is `@a`, by name 0; the other name is `@b`.
fn forest(alloc: Global) -> Result<Vec<Row>, NoMemory>
    ensures { IfOk result (λ rows. IsForward rows.items) }
{
    let events = [
        // 0: `while @b; @a = nil; end`
        Open(Form::While, AT),
        Open(Form::If, AT),
        Open(Form::Field(NameId(1)), AT),
        Close,
        Open(Form::Seq, AT),
        Open(Form::SetField(NameId(0)), AT),
        Open(Form::Nil, AT),
        Close,
        Close,
        Open(Form::Again, AT),
        Close,
        Close,
        Open(Form::Nil, AT),
        Close,
        Close,
        Close,
        // 8: `while true; @a = nil; break; end`
        Open(Form::While, AT),
        Open(Form::If, AT),
        Open(Form::True, AT),
        Close,
        Open(Form::Seq, AT),
        Open(Form::SetField(NameId(0)), AT),
        Open(Form::Nil, AT),
        Close,
        Close,
        Open(Form::Seq, AT),
        Open(Form::Break, AT),
        Close,
        Open(Form::Again, AT),
        Close,
        Close,
        Close,
        Open(Form::Nil, AT),
        Close,
        Close,
        Close,
        // 18: `f { @a = nil }`
        Open(
            Form::Call {
                name: NameId(1),
                receiver: false,
                block: true,
            },
            AT,
        ),
        Open(Form::Block(ScopeId(1)), AT),
        Open(Form::SetField(NameId(0)), AT),
        Open(Form::Nil, AT),
        Close,
        Close,
        Close,
        Close,
        // 22: `spawn { @a = nil }`
        Open(Form::Spawn { context: false }, AT),
        Open(Form::Block(ScopeId(2)), AT),
        Open(Form::SetField(NameId(0)), AT),
        Open(Form::Nil, AT),
        Close,
        Close,
        Close,
        Close,
        // 26: `select; when @b.receive; @a = nil; else @a = nil; end`
        Open(Form::Select { otherwise: true }, AT),
        Open(Form::Receive, AT),
        Open(Form::Field(NameId(1)), AT),
        Close,
        Open(Form::SetField(NameId(0)), AT),
        Open(Form::Nil, AT),
        Close,
        Close,
        Close,
        Open(Form::SetField(NameId(0)), AT),
        Open(Form::Nil, AT),
        Close,
        Close,
        Close,
        // 33: `@b || return; yield; @a = nil; yield`
        Open(Form::Seq, AT),
        Open(Form::Or, AT),
        Open(Form::Field(NameId(1)), AT),
        Close,
        Open(Form::Return, AT),
        Open(Form::Nil, AT),
        Close,
        Close,
        Close,
        Open(Form::Seq, AT),
        Open(Form::Yield, AT),
        Close,
        Open(Form::Seq, AT),
        Open(Form::SetField(NameId(0)), AT),
        Open(Form::Nil, AT),
        Close,
        Close,
        Open(Form::Yield, AT),
        Close,
        Close,
        Close,
        Close,
    ];
    let rows = link(alloc, &events)?;
    Ok(rows)
}

// The first use of `@a` to which a way leads without an assignment, and whether one leads to the node's end.
fn bare(rows: &[Row], ranks: &[Option<u32>], n: u32) -> (Option<u32>, bool)
    requires { IsForward rows.now }
{
    let all = reach(rows, None, ranks, Variable::Field(NameId(0)), NodeId(n));
    (all.found, all.reaches_end())
}

#[test]
fn ways_through_loops_blocks_and_choices(rt: HostRuntime) -> Result<(), Fail> {
    let rows = forest(rt.alloc())?;
    // The second `yield` has the lower rank.
    let mut ranks = Vec::new(rt.alloc());
    for n in 0..44 {
        ranks.push(match n {
            39 => Some(1),
            43 => Some(0),
            _ => None,
        })?;
    }
    for (n, first_use, end) in [
        (0, None, true),
        (8, None, false),
        (18, None, true),
        (22, None, true),
        (26, None, false),
        (33, Some(1), true),
        (38, Some(1), false),
        (40, None, false),
    ] {
        assert_eq!(rt; bare(&rows, &ranks, n), (first_use, end));
    }
    Ok(())
}

fn uses(tree: &CoreTree, variable: Variable, ranks: &[Option<u32>]) -> Option<Unassigned> {
    if tree.scope_count() > 0 {
        Some(unassigned_uses(tree, ScopeId(0), variable, ranks))
    } else {
        None
    }
}

#[test]
fn a_use_of_each_variable(rt: HostRuntime) -> Result<(), Fail> {
    let tree = sample(rt.alloc())?;
    let x = Variable::Local {
        scope: ScopeId(0),
        slot: 0,
    };
    // The text and then the assignment act, neither after an assignment.
    let ranks = [None, None, Some(4), Some(7)];
    for (variable, end) in [(x, false), (Variable::Field(NameId(0)), true)] {
        assert_eq!(rt;
            uses(&tree, variable, &ranks),
            Some(Unassigned {
                first_use: Some(4),
                end
            })
        );
    }
    Ok(())
}

#[test]
fn captured_slots(rt: HostRuntime) -> Result<(), Fail> {
    let slots = [true, false, true].map(|captured| Slot {
        name: None,
        captured,
    });
    let found = flagged(rt.alloc(), &slots)?;
    assert_eq!(rt; found.as_slice(), [0, 2].as_slice());
    Ok(())
}
