//! The text of a tree, put behind other bytes: part by part, and each part step by step.
ghost use Rattle.std.specs.Prelude.{◌≡◌, ◌++◌, OnOk, IfOk, map, suc};
ghost use Rattle.cr_pieces.specs.Writes.{Writes};
ghost use Rattle.cr_pretty.specs.Layout.{argument, bare, enclosed as enclosed_so, items, joined, laid, layout, line, lines, method_name, more_joined, more_parts, negated, operand, text_parts};
ghost use Rattle.cr_pretty.specs.Parts.{between, constants, part_pieces, placed, step_pieces};

use crate::leaf::{enclose_digit, put_between, put_bytes, put_line, put_method_name, put_names};
use crate::manner::Manner;
use crate::part::Part;
use crate::parts::parts_of;
use crate::shape::{is_enclosed_argument, is_enclosed_gift, is_enclosed_operand};
use crate::step::Step;
use crate::steps::steps_of;
use cr_base::NoMemory;
use cr_grammar::Tree;
use cr_pieces::{
    put_blank, put_constant, put_int32, put_int64, put_look, put_name, put_text, put_text_first,
    put_text_last, put_text_middle, put_variable,
};
use cr_syntax::{TokenLook, TokenText};
use std::alloc::Global;

/// How many constructs may stand in one another: more are too many for memory. A program within the limits nests 200 nodes, with
/// at most two lists or clauses between a node and the next.
const MAX_DEPTH: usize = 640;

/// Puts a construct.
#[cycle(writer)]
fn write(out: &mut Vec<u8>, tree: &Tree, level: usize, depth: usize) -> Result<(), NoMemory>
    ensures { OnOk result (Writes (bare level (laid tree.now)) out.old.items out.new.items) }
{
    let Some(inner) = depth.checked_sub(1) else {
        return Err(NoMemory);
    };
    let parts = parts_of(tree);
    for part in parts.iter() {
        write_part(out, *part, level, inner)?;
    }
    Ok(())
}

/// Puts a part of a construct.
#[cycle(writer)]
fn write_part(out: &mut Vec<u8>, part: Part, level: usize, depth: usize) -> Result<(), NoMemory>
    ensures { OnOk result (Writes (part_pieces level part.entry) out.old.items out.new.items) }
{
    if let Part::Nothing = part {
        return Ok(());
    }
    if let Part::Space = part {
        return put_blank(out, 1);
    }
    if let Part::Word(look) = part {
        return put_look(out, look);
    }
    if let Part::Name(name) = part {
        return put_name(out, name);
    }
    let steps = steps_of(part);
    for step in steps.iter() {
        write_step(out, *step, level, depth)?;
    }
    Ok(())
}

/// Puts what is put at once.
#[cycle(writer)]
fn write_step(out: &mut Vec<u8>, step: Step, level: usize, depth: usize) -> Result<(), NoMemory>
    ensures { OnOk result (Writes (step_pieces level step.entry) out.old.items out.new.items) }
{
    match step {
        Step::Nothing => Ok(()),
        Step::Space => put_blank(out, 1),
        Step::Line => put_line(out, level),
        Step::Word(look) => put_look(out, look),
        Step::Name(name) => put_name(out, name),
        Step::Constant(name) => put_constant(out, name),
        Step::Variable(name) => put_variable(out, name),
        Step::MethodName(name) => put_method_name(out, name),
        Step::New => put_bytes(out, b"new"),
        Step::Fiber => put_bytes(out, b"Fiber"),
        Step::Int32(value) => put_int32(out, value),
        Step::Int64(value) => put_int64(out, value),
        Step::Text(text) => put_text(out, text),
        Step::Insertions(parts, inserted) => {
            write_text(out, parts.as_slice(), inserted.as_slice(), level, depth)
        }
        Step::Bare(x) => write(out, x, level, depth),
        Step::Operand(x) => write_enclosed(out, x, is_enclosed_operand(x), level, depth),
        Step::Argument(x) => write_enclosed(out, x, is_enclosed_argument(x), level, depth),
        Step::Given(x) => write_enclosed(out, x, is_enclosed_gift(x), level, depth),
        Step::Negated(x) => write_negated(out, x, level, depth),
        Step::Arguments(list) => {
            write_list(out, list.as_slice(), Manner::Arguments, level, depth)
        }
        Step::Listed(list) => write_list(out, list.as_slice(), Manner::Listed, level, depth),
        Step::Atoms(list) => write_list(out, list.as_slice(), Manner::Atoms, level, depth),
        Step::Path(names) => put_names(out, names.as_slice(), Manner::Path),
        Step::Constants(names) => put_names(out, names.as_slice(), Manner::Listed),
        Step::Program(list) => write_program(out, list.as_slice(), depth),
        Step::Lines(list) => write_body(out, list.as_slice(), level, depth),
        Step::Clauses(list) => write_lines(out, list.as_slice(), level, depth),
    }
}

/// Puts a construct, in parentheses where it is enclosed.
#[cycle(writer)]
fn write_enclosed(
    out: &mut Vec<u8>,
    tree: &Tree,
    enclosed: bool,
    level: usize,
    depth: usize,
) -> Result<(), NoMemory>
    ensures { OnOk result (Writes (enclosed_so enclosed (bare level (laid tree.now))) out.old.items out.new.items) }
{
    if !enclosed {
        return write(out, tree, level, depth);
    }
    put_look(out, TokenLook::OpenParenthesis)?;
    write(out, tree, level, depth)?;
    put_look(out, TokenLook::CloseParenthesis)
}

/// Puts the operand behind a `-`, in parentheses where a digit comes first.
#[cycle(writer)]
fn write_negated(out: &mut Vec<u8>, tree: &Tree, level: usize, depth: usize) -> Result<(), NoMemory>
    ensures { OnOk result (Writes (negated (operand level (laid tree.now))) out.old.items out.new.items) }
{
    let first = out.len();
    write_enclosed(out, tree, is_enclosed_operand(tree), level, depth)?;
    enclose_digit(out, first)
}

/// Puts the constructs of a list, with its pieces between any two.
#[cycle(writer)]
fn write_list(
    out: &mut Vec<u8>,
    list: &[Tree],
    manner: Manner,
    level: usize,
    depth: usize,
) -> Result<(), NoMemory>
    ensures { OnOk result (Writes (joined (between manner) (map (placed manner level) (map laid list.now))) out.old.items out.new.items) }
{
    let [first, more @ ..] = list else {
        return Ok(());
    };
    write_placed(out, first, manner, level, depth)?;
    write_more(out, more, manner, level, depth)
}

/// Puts the constructs behind the first one of a list.
#[cycle(writer)]
fn write_more(
    out: &mut Vec<u8>,
    list: &[Tree],
    manner: Manner,
    level: usize,
    depth: usize,
) -> Result<(), NoMemory>
    ensures { OnOk result (Writes (more_joined (between manner) (map (placed manner level) (map laid list.now))) out.old.items out.new.items) }
{
    for tree in list {
        put_between(out, manner)?;
        write_placed(out, tree, manner, level, depth)?;
    }
    Ok(())
}

/// Puts a construct of a list.
#[cycle(writer)]
fn write_placed(
    out: &mut Vec<u8>,
    tree: &Tree,
    manner: Manner,
    level: usize,
    depth: usize,
) -> Result<(), NoMemory>
    ensures { OnOk result (Writes (placed manner level (laid tree.now)) out.old.items out.new.items) }
{
    match manner {
        Manner::Arguments => write_enclosed(out, tree, is_enclosed_argument(tree), level, depth),
        Manner::Listed | Manner::Atoms | Manner::Path => write(out, tree, level, depth),
    }
}

/// Puts constructs of a level, each on a line of its own.
#[cycle(writer)]
fn write_lines(out: &mut Vec<u8>, list: &[Tree], level: usize, depth: usize) -> Result<(), NoMemory>
    ensures { OnOk result (Writes (lines level (map laid list.now)) out.old.items out.new.items) }
{
    for tree in list {
        put_line(out, level)?;
        write(out, tree, level, depth)?;
    }
    Ok(())
}

/// Puts constructs one level below. So many levels that they cannot be counted are too many for memory.
#[cycle(writer)]
fn write_body(out: &mut Vec<u8>, list: &[Tree], level: usize, depth: usize) -> Result<(), NoMemory>
    ensures { OnOk result (Writes (lines (suc level) (map laid list.now)) out.old.items out.new.items) }
{
    let Some(inner) = level.checked_add(1) else {
        return Err(NoMemory);
    };
    write_lines(out, list, inner, depth)
}

/// Puts the items of a program, each with the end of its line.
#[cycle(writer)]
fn write_program(out: &mut Vec<u8>, list: &[Tree], depth: usize) -> Result<(), NoMemory>
    ensures { OnOk result (Writes (items (map laid list.now)) out.old.items out.new.items) }
{
    for tree in list {
        write(out, tree, 0, depth)?;
        put_look(out, TokenLook::Newline)?;
    }
    Ok(())
}

/// Puts a text with its insertions.
#[cycle(writer)]
fn write_text(
    out: &mut Vec<u8>,
    parts: &[TokenText],
    inserted: &[Tree],
    level: usize,
    depth: usize,
) -> Result<(), NoMemory>
    ensures { OnOk result (Writes (text_parts level parts.now (map laid inserted.now)) out.old.items out.new.items) }
{
    let [first, more @ ..] = parts else {
        return Ok(());
    };
    put_text_first(out, first)?;
    write_insertions(out, more, inserted, level, depth)
}

/// Puts the insertions of a text, with these parts behind them.
#[cycle(writer)]
fn write_insertions(
    out: &mut Vec<u8>,
    mut parts: &[TokenText],
    inserted: &[Tree],
    level: usize,
    depth: usize,
) -> Result<(), NoMemory>
    ensures { OnOk result (Writes (more_parts level parts.entry.now (map laid inserted.now)) out.old.items out.new.items) }
{
    for tree in inserted {
        let [part, more @ ..] = parts else {
            return Ok(());
        };
        write_enclosed(out, tree, is_enclosed_argument(tree), level, depth)?;
        if more.is_empty() {
            return put_text_last(out, part);
        }
        put_text_middle(out, part)?;
        parts = more;
    }
    Ok(())
}

/// The layout of a tree. An error comes where memory runs out, and where more than 640 constructs stand in one another, lists
/// and clauses among them: in a program within the limits fewer do.
pub fn write_tree(alloc: Global, tree: &Tree) -> Result<Vec<u8>, NoMemory>
    ensures { IfOk result (λ bytes. bytes.items ≡ layout tree.now) }
{
    let mut out = Vec::new(alloc);
    write(&mut out, tree, 0, MAX_DEPTH)?;
    Ok(out)
}
