//! What core trees tell beyond their rows: scopes with their locals, declarations, methods with a `yield`, and which instance
//! variables a method may leave unassigned.

use crate::tests::core_alone;
use crate::tests::core_line::name_of;
use cr_base::{NameId, NoMemory};
use cr_core::{CoreTree, Form, Scope, ScopeId, ScopeKind};
use cr_declarations::{Declaration, Declared, Owner, declarations, scopes_with_yield};
use cr_flow::{Unassigned, Variable, unassigned_in};
use std::alloc::{AllocError, Global};
use std::fmt::Write;
use std::test::Fail;

/// The scopes in order: the kind of each, how many parameters it has, and for each local whether a spawned block captures it.
fn scopes_line(alloc: Global, core: &CoreTree) -> Result<String, AllocError> {
    let mut out = String::new(alloc);
    for number in 0..u32::MAX {
        let Some(scope) = scope_at(core, ScopeId(number)) else {
            return Ok(out);
        };
        write_scope(&mut out, scope)?;
    }
    Ok(out)
}

fn scope_at(core: &CoreTree, at: ScopeId) -> Option<&Scope> {
    if (at.0 as usize) < core.scope_count() {
        Some(core.scope(at))
    } else {
        None
    }
}

fn write_scope(out: &mut String, scope: &Scope) -> Result<(), AllocError> {
    out.push_str(match scope.kind {
        ScopeKind::Main => "main",
        ScopeKind::Method => "method",
        ScopeKind::Block => "block",
        ScopeKind::Spawn => "spawn",
    })?;
    write!(out, " {} ", scope.parameters)?;
    for slot in scope.slots.as_slice() {
        out.push_str(if slot.captured { "+" } else { "-" })?;
    }
    out.push_str(";")
}

#[test]
fn scopes_and_captured_locals(rt: HostRuntime) -> Result<(), Fail> {
    for (text, want) in [
        (
            "x = nil; y = nil; foo { y }; spawn { foo { x } }",
            "main 0 +-;block 0 ;spawn 0 ;block 0 ;",
        ),
        (
            "def f(a, b); c = a; g { |d| spawn { d = c; e = d } }; end",
            "main 0 ;method 2 --+;block 1 +;spawn 0 -;",
        ),
    ] {
        let core = core_alone(&rt, rt.alloc(), text)?;
        let got = scopes_line(rt.alloc(), &core)?;
        assert_eq!(rt; got.as_str(), want, "at {text}");
    }
    Ok(())
}

/// Declarations in order, those of a class or module behind its name.
fn declared_line(
    alloc: Global,
    core: &CoreTree,
    list: &[Declaration],
) -> Result<String, AllocError> {
    let mut out = String::new(alloc);
    for declaration in list {
        write_declared(&mut out, core, declaration.declared)?;
        out.push_str(";")?;
    }
    Ok(out)
}

fn write_declared(out: &mut String, core: &CoreTree, declared: Declared) -> Result<(), AllocError> {
    match declared {
        Declared::Class { name, .. } => write_named(out, core, "class ", name),
        Declared::Module(name) => write_named(out, core, "module ", name),
        Declared::Include { owner, included } => {
            write_owner(out, core, owner)?;
            write_named(out, core, "include ", included)
        }
        Declared::Method { owner, name, .. } => {
            write_owner(out, core, owner)?;
            write_named(out, core, "def ", name)
        }
        Declared::Field { owner, name } => {
            write_owner(out, core, owner)?;
            write_named(out, core, "", name)
        }
    }
}

fn write_owner(out: &mut String, core: &CoreTree, owner: Owner) -> Result<(), AllocError> {
    match owner {
        Owner::TopLevel => Ok(()),
        Owner::Of(name) => {
            write_named(out, core, "", name)?;
            out.push_str(" ")
        }
    }
}

fn write_named(
    out: &mut String,
    core: &CoreTree,
    word: &str,
    name: NameId,
) -> Result<(), AllocError> {
    out.push_str(word)?;
    out.push_str(name_of(core, name))
}

fn declared(alloc: Global, core: &CoreTree) -> Result<String, Fail> {
    let list = declarations(alloc, core)?;
    Ok(declared_line(alloc, core, list.as_slice())?)
}

#[test]
fn what_a_text_declares(rt: HostRuntime) -> Result<(), Fail> {
    let text = "module M; def f; end; end; class A; include M; getter x : T; end; def g; end";
    let core = core_alone(&rt, rt.alloc(), text)?;
    let got = declared(rt.alloc(), &core)?;
    let want = "module M;M def f;class A;A include M;A @x;A def x;def g;";
    assert_eq!(rt; got.as_str(), want);
    Ok(())
}

#[test]
fn methods_with_a_yield(rt: HostRuntime) -> Result<(), Fail> {
    let text = "def f; yield 1; end; def g; f { |x| x }; end; def h; f { yield 2 }; end";
    let core = core_alone(&rt, rt.alloc(), text)?;
    let got = scopes_with_yield(rt.alloc(), &core)?;
    // The top level, `f`, `g` and its block, `h` and its block.
    let want = [false, true, false, false, true, false];
    assert_eq!(rt; got.as_slice(), want.as_slice());
    Ok(())
}

/// The instance variables that are declared.
fn fields(alloc: Global, list: &[Declaration]) -> Result<Vec<Variable>, AllocError> {
    let mut fields = Vec::new(alloc);
    for declaration in list {
        if let Declared::Field { name, .. } = declaration.declared {
            fields.push(Variable::Field(name))?;
        }
    }
    Ok(fields)
}

/// Rank 7 for each row that reads an instance variable.
fn ranks(alloc: Global, core: &CoreTree) -> Result<Vec<Option<u32>>, AllocError> {
    let mut ranks = Vec::new(alloc);
    for row in core.rows() {
        ranks.push(match row.form {
            Form::Field(_) => Some(7),
            _ => None,
        })?;
    }
    Ok(ranks)
}

/// What the first method leaves unassigned of these instance variables. No variables where there is no method.
fn left_by_method(
    alloc: Global,
    core: &CoreTree,
    fields: &[Variable],
    ranks: &[Option<u32>],
) -> Result<Vec<Unassigned>, NoMemory> {
    if core.scope_count() > 1 {
        unassigned_in(alloc, core, ScopeId(1), fields, ranks)
    } else {
        Ok(Vec::new(alloc))
    }
}

/// What the first method leaves unassigned of all instance variables that are declared.
fn left(alloc: Global, core: &CoreTree) -> Result<Vec<Unassigned>, NoMemory> {
    let list = declarations(alloc, core)?;
    let fields = fields(alloc, list.as_slice())?;
    let ranks = ranks(alloc, core)?;
    left_by_method(alloc, core, fields.as_slice(), ranks.as_slice())
}

#[test]
fn what_a_method_leaves_unassigned(rt: HostRuntime) -> Result<(), Fail> {
    let text = "class A; @x : T; @y : T; def f; @x = 1; @y = 2 if @x; @y; end; end";
    let core = core_alone(&rt, rt.alloc(), text)?;
    let got = left(rt.alloc(), &core)?;
    let want = [
        Unassigned {
            first_use: None,
            end: false,
        },
        Unassigned {
            first_use: Some(7),
            end: true,
        },
    ];
    assert_eq!(rt; got.as_slice(), want.as_slice());
    Ok(())
}
