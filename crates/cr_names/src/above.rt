//! What stands above the classes and modules of a core tree, by the numbers of their names.
ghost use Rattle.std.specs.Prelude.{◌≡◌, [], length, map, replicate, IfOk, OnOk};
ghost use Rattle.cr_ancestors.specs.Above.{ups};
ghost use Rattle.cr_names.specs.Above as spec;
ghost use Rattle.cr_names.specs.Growing as growing;
ghost use Rattle.cr_names.specs.Tables.{AreNames};

use crate::around::form_at;
use crate::deciding::is_superclass;
use crate::kind::declared_by;
use crate::lookup::Lookup;
use cr_ancestors::{ClassList, Hierarchy, Parents};
use cr_base::{ClassId, NameId, NoMemory};
use cr_core::{Form, Listed, Row};
use std::alloc::Global;

/// A class or module, and what stands directly above it.
#[derive(Clone, Copy, Debug)]
pub struct Edge {
    pub below: NameId,
    pub above: NameId,
}

/// What declarations put directly above each class and module, by the numbers of their names. More than 2 ^ 32 names are too many for
/// memory.
pub(crate) fn hierarchy(alloc: Global, lookup: &Lookup) -> Result<Hierarchy, NoMemory>
    requires { AreNames lookup.now.core.now lookup.now.names.now }
    ensures { IfOk result (λ hierarchy. hierarchy ≡ spec.hierarchy lookup.now.core.now) }
{
    let edges = edges(alloc, lookup)?;
    let lists = lists(alloc, lookup.core.names().len(), edges.as_slice())?;
    let parents = parents(alloc, lists.as_slice())?;
    match Hierarchy::of(alloc, parents.as_slice()) {
        Ok(hierarchy) => Ok(hierarchy),
        Err(_) => Err(NoMemory),
    }
}

/// All that declarations put directly above one another, in the order of the rows.
#[tactic(auto, unfolding(crate::specs::Above::edges))]
fn edges(alloc: Global, lookup: &Lookup) -> Result<Vec<Edge>, NoMemory>
    requires { AreNames lookup.now.core.now lookup.now.names.now }
    ensures { IfOk result (λ edges. edges.items ≡ spec.edges lookup.now.core.now) }
{
    let mut edges = Vec::new(alloc);
    for row in lookup.core.rows() {
        if let Some(edge) = edge_of(lookup, row) {
            edges.push(edge)?;
        }
    }
    Ok(edges)
}

fn edge_of(lookup: &Lookup, row: &Row) -> Option<Edge>
    requires { AreNames lookup.now.core.now lookup.now.names.now }
    ensures { result ≡ spec.edge_of lookup.now.core.now row.now }
{
    match row.form {
        Form::Class {
            name,
            superclass: Some(above),
        } => superclass_edge(lookup, name, above),
        Form::Include(above) => {
            let around = form_at(lookup.core.rows(), row.within.parent);
            module_edge(lookup, declared_in(around), above)
        }
        _ => None,
    }
}

fn superclass_edge(lookup: &Lookup, below: NameId, above: NameId) -> Option<Edge>
    requires { AreNames lookup.now.core.now lookup.now.names.now }
    ensures { result ≡ spec.superclass_edge lookup.now.core.now below above }
{
    if is_superclass(lookup, above) {
        Some(Edge { below, above })
    } else {
        None
    }
}

fn module_edge(lookup: &Lookup, below: Option<NameId>, above: NameId) -> Option<Edge>
    requires { AreNames lookup.now.core.now lookup.now.names.now }
    ensures { result ≡ spec.module_edge lookup.now.core.now below above }
{
    let below = below?;
    if lookup.is_module(above) {
        Some(Edge { below, above })
    } else {
        None
    }
}

/// The name of the class or module that a form declares.
fn declared_in(form: Option<Form>) -> Option<NameId>
    ensures { result ≡ spec.declared_in form }
{
    declared_by(form?)
}

/// For each number below the count, what stands directly above it.
fn lists(alloc: Global, count: usize, edges: &[Edge]) -> Result<Vec<Listed<ClassId>>, NoMemory>
    ensures { IfOk result (λ lists. lists.items ≡ growing.with_edges (replicate count []) edges.now) }
{
    let mut lists = open_lists(alloc, count)?;
    for edge in edges {
        add(lists.as_mut_slice(), *edge)?;
    }
    Ok(lists)
}

fn open_lists(alloc: Global, count: usize) -> Result<Vec<Listed<ClassId>>, NoMemory>
    ensures { IfOk result (λ lists. lists.items ≡ replicate count []) }
{
    let mut lists = Vec::new(alloc);
    for _made in 0..count {
        lists.push(Listed::new(alloc))?;
    }
    Ok(lists)
}

fn add(lists: &mut [Listed<ClassId>], edge: Edge) -> Result<(), NoMemory>
    ensures { OnOk result (lists.new ≡ growing.with_edge lists.old edge) }
{
    let number = edge.below.0 as usize;
    if number < lists.len() {
        lists[number].push(ClassId(edge.above.0))?;
    }
    Ok(())
}

fn parents(alloc: Global, lists: &[Listed<ClassId>]) -> Result<Vec<Parents>, NoMemory>
    ensures { IfOk result (λ parents. map ups parents.items ≡ lists.now) }
{
    let mut parents = Vec::new(alloc);
    for list in lists {
        parents.push(parents_of(alloc, list.as_slice())?)?;
    }
    Ok(parents)
}

fn parents_of(alloc: Global, list: &[ClassId]) -> Result<Parents, NoMemory>
    ensures { IfOk result (λ parents. ups parents ≡ list.now) }
{
    let superclasses = ClassList::of(Vec::from_slice(alloc, list)?);
    let modules = ClassList::of(Vec::new(alloc));
    Ok(Parents {
        modules,
        superclasses,
    })
}
