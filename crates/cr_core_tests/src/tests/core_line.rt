//! A core tree as one line: its rows but the program's, each form by its word with what it names behind a colon, and its parts
//! behind it in parentheses. Literals, locals and instance variables stand as they are, `%1` is the local of slot 1 that has no
//! name, `x^1` the local `x` of the scope around, `?` what is not there. A call is `f()`, `(f a b)`, or `(.f receiver a)`; the
//! class of a type stands alone; `Made` is a method without a `def` in the text. `@7` is the place, `@p7` one in the prelude.

use cr_base::NameId;
use cr_core::{CoreTree, Form, Local, Place, Row, ScopeId, TextId};
use std::alloc::{AllocError, Global};
use std::fmt::Write;

/// The core tree as one line, with places or without.
pub fn core_line(alloc: Global, core: &CoreTree, places: bool) -> Result<String, AllocError> {
    let mut out = String::new(alloc);
    let mut open = Vec::new(alloc);
    for row in core.rows().iter().skip(1) {
        if !out.is_empty() {
            out.push_str(" ")?;
        }
        write_row(&mut out, core, row, places)?;
        write_ends(&mut out, &mut open, row.parts.as_slice().len())?;
    }
    Ok(out)
}

/// Behind a row that has so many parts: what ends with it. Of each row that has not ended `open` has how many parts are to come.
fn write_ends(out: &mut String, open: &mut Vec<usize>, count: usize) -> Result<(), AllocError> {
    if count > 0 {
        open.push(count)?;
        return Ok(());
    }
    for _ in 0..open.len() {
        let left = open.pop().unwrap_or(0);
        if left > 1 {
            open.push(left - 1)?;
            return Ok(());
        }
        out.push_str(")")?;
    }
    Ok(())
}

fn write_row(out: &mut String, core: &CoreTree, row: &Row, places: bool) -> Result<(), AllocError> {
    let leaf = row.parts.as_slice().is_empty();
    out.push_str(if leaf { "" } else { "(" })?;
    write_form(out, core, row.form, row.within.scope)?;
    out.push_str(behind(row.form, leaf))?;
    write_name(out, core, superclass(row.form))?;
    write_place(out, places, row.place)
}

/// A form that stands in this scope.
fn write_form(
    out: &mut String,
    core: &CoreTree,
    form: Form,
    scope: ScopeId,
) -> Result<(), AllocError> {
    out.push_str(word(form))?;
    write_name(out, core, name(form))?;
    write_text(out, core, text(form))?;
    write_number(out, number(form))?;
    write_local(out, core, local(form, scope))
}

fn write_place(out: &mut String, places: bool, place: Place) -> Result<(), AllocError> {
    if !places {
        return Ok(());
    }
    out.push_str(if place.prelude { "@p" } else { "@" })?;
    write!(out, "{}", place.at)
}

fn write_name(out: &mut String, core: &CoreTree, name: Option<NameId>) -> Result<(), AllocError> {
    match name {
        Some(name) => out.push_str(name_of(core, name)),
        None => Ok(()),
    }
}

fn write_text(out: &mut String, core: &CoreTree, text: Option<TextId>) -> Result<(), AllocError> {
    match text {
        Some(text) => out.push_str(text_of(core, text)),
        None => Ok(()),
    }
}

fn write_number(out: &mut String, number: Option<i64>) -> Result<(), AllocError> {
    match number {
        Some(number) => write!(out, "{number}"),
        None => Ok(()),
    }
}

fn write_local(out: &mut String, core: &CoreTree, local: Option<Local>) -> Result<(), AllocError> {
    let Some(local) = local else {
        return Ok(());
    };
    match local_name(core, local) {
        Some(name) => out.push_str(name)?,
        None => write!(out, "%{}", local.slot)?,
    }
    if local.up > 0 {
        write!(out, "^{}", local.up)?;
    }
    Ok(())
}

pub fn name_of(core: &CoreTree, name: NameId) -> &str {
    let names = core.names();
    if (name.0 as usize) < names.len() {
        names.text(name)
    } else {
        "?"
    }
}

fn text_of(core: &CoreTree, text: TextId) -> &str {
    if (text.0 as usize) < core.text_count() {
        core.text(text)
    } else {
        "?"
    }
}

/// The name of a local. None where it has none.
fn local_name(core: &CoreTree, local: Local) -> Option<&str> {
    if local.scope.0 as usize >= core.scope_count() {
        return Some("?");
    }
    match core
        .scope(local.scope)
        .slots
        .as_slice()
        .get(local.slot as usize)
    {
        Some(slot) => Some(name_of(core, slot.name?)),
        None => Some("?"),
    }
}

/// What a form begins with.
fn word(form: Form) -> &'static str {
    match form {
        Form::Nil => "nil",
        Form::True => "true",
        Form::False => "false",
        Form::KeywordSelf => "self",
        Form::Text(_) => "\"",
        Form::Set(_) | Form::SetField(_) => "Set:",
        Form::Int32(_) | Form::Int64(_) | Form::Local(_) | Form::Field(_) => "",
        Form::Seq => "Seq",
        Form::If => "If",
        Form::And => "And",
        Form::Or => "Or",
        Form::Not => "Not",
        Form::IsA => "IsA",
        Form::While => "While",
        Form::Again => "Again",
        Form::Return => "Return",
        Form::Next => "Next",
        Form::Break => "Break",
        other => called_word(other),
    }
}

/// What a form begins with that is a call, or what the language knows by a word.
fn called_word(form: Form) -> &'static str {
    match form {
        Form::Call { receiver, .. } => { if receiver { "." } else { "" } }
        Form::Super => "Super",
        Form::New { .. } => "New",
        Form::Yield => "Yield",
        Form::Spawn { .. } => "Spawn",
        Form::Raise => "Raise",
        Form::Puts => "Puts",
        Form::Pause => "Pause",
        Form::Array { .. } => "Array",
        Form::Hash { .. } => "Hash",
        Form::Select { .. } => "Select",
        Form::Received => "Received",
        Form::Send => "Send",
        Form::Receive => "Receive",
        Form::ReceiveOrNil => "ReceiveOrNil",
        other => declared_word(other),
    }
}

/// What a type, a declaration or a block begins with.
fn declared_word(form: Form) -> &'static str {
    match form {
        Form::Union => "Union",
        Form::Block(_) => "Block",
        Form::Def { written, .. } => { if written { "Def:" } else { "Made:" } }
        Form::Parameter { .. } => "Parameter:",
        Form::Class { .. } => "Class:",
        Form::Module(_) => "Module:",
        Form::Include(_) => "Include:",
        Form::Declaration(_) => "Declaration:",
        _ => "",
    }
}

/// What stands behind that which a form names.
fn behind(form: Form, leaf: bool) -> &'static str {
    match form {
        Form::Int64(_) => "_i64",
        Form::Text(_) => "\"",
        Form::Call { .. } => { if leaf { "()" } else { "" } }
        Form::New { question: true, .. } => ":?",
        Form::Select { otherwise: true } => ":else",
        Form::Class {
            superclass: Some(_),
            ..
        } => "<",
        _ => "",
    }
}

fn name(form: Form) -> Option<NameId> {
    match form {
        Form::Field(name)
        | Form::SetField(name)
        | Form::Call { name, .. }
        | Form::Atom(name)
        | Form::Def { name, .. }
        | Form::Class { name, .. }
        | Form::TypeParameter(name)
        | Form::Module(name)
        | Form::Include(name)
        | Form::Declaration(name) => Some(name),
        _ => None,
    }
}

fn superclass(form: Form) -> Option<NameId> {
    match form {
        Form::Class { superclass, .. } => superclass,
        _ => None,
    }
}

fn text(form: Form) -> Option<TextId> {
    match form {
        Form::Text(text) => Some(text),
        _ => None,
    }
}

fn number(form: Form) -> Option<i64> {
    match form {
        Form::Int32(value) => Some(value as i64),
        Form::Int64(value) => Some(value),
        _ => None,
    }
}

/// The local that a form names which stands in this scope.
fn local(form: Form, scope: ScopeId) -> Option<Local> {
    match form {
        Form::Local(local) | Form::Set(local) => Some(local),
        Form::Parameter { slot, .. } => Some(Local { scope, slot, up: 0 }),
        _ => None,
    }
}
