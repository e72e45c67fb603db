use super::*;
use cr_base::{NameId, NoMemory, NodeId};
use cr_syntax::Names;
use std::alloc::{AllocError, Global};
use std::test::Fail;

// The walk in which each step opens a form or closes one. A form's place is the step's number.
fn walk(alloc: Global, steps: &[Option<Form>]) -> Result<Vec<Event>, AllocError> {
    let mut events = Vec::new(alloc);
    for (step, form) in steps.iter().enumerate() {
        events.push(match form {
            Some(form) => Event::Open(
                *form,
                Place {
                    prelude: false,
                    at: u32::try_from(step).unwrap_or(0),
                },
            ),
            None => Event::Close,
        })?;
    }
    Ok(events)
}

fn number(node: Option<NodeId>) -> i64 {
    node.map_or(-1, |node| i64::from(node.0))
}

fn numbers(alloc: Global, nodes: &[NodeId]) -> Result<String, AllocError> {
    let mut text = String::new(alloc);
    for node in nodes {
        let number = format!(in alloc; " {}", node.0)?;
        text.push_str(number.as_str())?;
    }
    Ok(text)
}

// A line a row: its place, its parent, its scope, its loop, and its parts.
fn show(alloc: Global, rows: &[Row]) -> Result<String, AllocError> {
    let mut text = String::new(alloc);
    for row in rows {
        let within = row.within;
        let line = format!(in alloc;
            "{} in {} {} {}:",
            row.place.at,
            number(within.parent),
            within.scope.0,
            number(within.turn)
        )?;
        text.push_str(line.as_str())?;
        let parts = numbers(alloc, row.parts.as_slice())?;
        text.push_str(parts.as_str())?;
        text.push_str("\n")?;
    }
    Ok(text)
}

#[test]
fn a_walk_has_its_rows(rt: HostRuntime) -> Result<(), Fail> {
    let alloc = rt.alloc();
    let program = Form::Program(ScopeId(0));
    let block = Form::Block(ScopeId(1));
    let call = Form::Call {
        name: NameId(0),
        receiver: false,
        block: true,
    };
    for (steps, rows) in [
        (&[] as &[Option<Form>], ""),
        (
            &[Some(program), Some(Form::Nil), None, None],
            "0 in -1 0 -1: 1\n1 in 0 0 -1:\n",
        ),
        // while true; foo { break }; end
        (
            &[
                Some(program),
                Some(Form::While),
                Some(Form::If),
                Some(Form::True),
                None,
                Some(call),
                Some(block),
                Some(Form::Break),
                None,
                None,
                None,
                Some(Form::Nil),
                None,
                None,
                None,
                None,
            ],
            "0 in -1 0 -1: 1\n1 in 0 0 -1: 2\n2 in 1 0 1: 3 4 7\n3 in 2 0 1:\n5 in 2 0 1: 5\n6 in 4 0 1: 6\n7 in 5 1 -1:\n11 in 2 0 1:\n",
        ),
    ] {
        let events = walk(alloc, steps)?;
        let linked = link(alloc, events.as_slice())?;
        assert_eq!(rt; show(alloc, linked.as_slice())?.as_str(), rows);
    }
    Ok(())
}

// `include x` in the prelude, and `x = "a"`.
fn sample(alloc: Global) -> Result<CoreTree, NoMemory> {
    let local = Local {
        scope: ScopeId(0),
        slot: 0,
        up: 0,
    };
    let events = [
        Event::Open(
            Form::Program(ScopeId(0)),
            Place {
                prelude: false,
                at: 0,
            },
        ),
        Event::Open(
            Form::Include(NameId(0)),
            Place {
                prelude: true,
                at: 5,
            },
        ),
        Event::Close,
        Event::Open(
            Form::Set(local),
            Place {
                prelude: false,
                at: 0,
            },
        ),
        Event::Open(
            Form::Text(TextId(0)),
            Place {
                prelude: false,
                at: 4,
            },
        ),
        Event::Close,
        Event::Close,
        Event::Close,
    ];
    let rows = link(alloc, &events)?;
    let mut names = Names::new(alloc);
    names.intern("x")?;
    let mut texts = Names::new(alloc);
    texts.intern("a")?;
    let mut slots = Listed::new(alloc);
    slots.push(Slot {
        name: Some(NameId(0)),
        captured: false,
    })?;
    let mut scopes = Vec::new(alloc);
    scopes.push(Scope {
        kind: ScopeKind::Main,
        home: None,
        site: NodeId(0),
        body: NodeId(2),
        parameters: 0,
        slots,
    })?;
    Ok(CoreTree::new(rows, scopes, names, texts))
}

fn form_of(tree: &CoreTree, at: u32) -> Option<Form> {
    if (at as usize) < tree.len() {
        Some(tree.row(NodeId(at)).form)
    } else {
        None
    }
}

fn slot_count(tree: &CoreTree, at: u32) -> usize {
    if (at as usize) < tree.scope_count() {
        tree.scope(ScopeId(at)).slots.as_slice().len()
    } else {
        0
    }
}

fn text_of(tree: &CoreTree, at: u32) -> &str {
    if (at as usize) < tree.text_count() {
        tree.text(TextId(at))
    } else {
        ""
    }
}

fn name_of(tree: &CoreTree, at: u32) -> &str {
    let names = tree.names();
    if (at as usize) < names.len() {
        names.text(NameId(at))
    } else {
        ""
    }
}

#[test]
fn a_core_tree_is_read(rt: HostRuntime) -> Result<(), Fail> {
    let tree = sample(rt.alloc())?;
    assert_eq!(rt; tree.rows().len(), 4);
    assert_eq!(rt; form_of(&tree, 1), Some(Form::Include(NameId(0))));
    assert_eq!(rt; slot_count(&tree, 0), 1);
    assert_eq!(rt; text_of(&tree, 0), "a");
    assert_eq!(rt; name_of(&tree, 0), "x");
    Ok(())
}

#[test]
fn the_prelude_stands_before_the_source(rt: HostRuntime) -> Result<(), Fail> {
    let alloc = rt.alloc();
    let tree = sample(alloc)?;
    let whole = tree.in_order(alloc)?;
    assert_eq!(rt; numbers(alloc, whole.as_slice())?.as_str(), " 1 0 2 3");
    Ok(())
}

#[test]
fn a_scope_has_its_nodes_in_order(rt: HostRuntime) -> Result<(), Fail> {
    let alloc = rt.alloc();
    let tree = sample(alloc)?;
    let nodes = tree.in_order_of(alloc, ScopeId(0))?;
    assert_eq!(rt; numbers(alloc, nodes.as_slice())?.as_str(), " 1 0 2 3");
    Ok(())
}
