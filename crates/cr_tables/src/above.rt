//! What declarations put above each class and module, by the numbers of these.
ghost use Rattle.std.specs.Prelude.{◌≡◌, IfOk};
ghost use Rattle.cr_declarations.specs.Declaring as declaring;
ghost use Rattle.cr_names.specs.Tables.{AreNames};
ghost use Rattle.cr_tables.specs.Hierarchy as spec;
ghost use Rattle.cr_tables.specs.Making as making;
ghost use Rattle.cr_tables.specs.Tables as tables;

use crate::link::Link;
use crate::naming::{class_named, is_class};
use cr_ancestors::{ClassList, Hierarchy, Parents};
use cr_base::{ClassId, NoMemory};
use cr_declarations::{Declaration, Declared, Owner, declarations};
use cr_names::Lookup;
use std::alloc::Global;

/// What stands directly above each class and module, in the order of lookup.
pub(crate) fn hierarchy(
    alloc: Global,
    lookup: &Lookup,
    kinds: &[bool],
) -> Result<Hierarchy, NoMemory>
    requires names { AreNames lookup.now.core.now lookup.now.names.now }
    requires kinds { kinds.now ≡ tables.all_kinds lookup.now.core.now }
    ensures { IfOk result (λ hierarchy. hierarchy ≡ spec.hierarchy lookup.now.core.now) }
{
    let declared = declarations(alloc, lookup.core)?;
    let inclusions = inclusions(alloc, lookup, declared.as_slice())?;
    let superclasses = named_superclasses(alloc, lookup, declared.as_slice())?;
    let parents = all_parents(alloc, kinds, inclusions.as_slice(), superclasses.as_slice())?;
    match Hierarchy::of(alloc, parents.as_slice()) {
        Ok(hierarchy) => Ok(hierarchy),
        Err(_) => Err(NoMemory),
    }
}

/// Each inclusion of a module.
fn inclusions(
    alloc: Global,
    lookup: &Lookup,
    declared: &[Declaration],
) -> Result<Vec<Link>, NoMemory>
    requires names { AreNames lookup.now.core.now lookup.now.names.now }
    requires declared { declared.now ≡ declaring.declarations lookup.now.core.now.rows }
    ensures { IfOk result (λ links. links.items ≡ spec.inclusions lookup.now.core.now) }
{
    let mut links = Vec::new(alloc);
    for declaration in declared {
        if let Some(link) = inclusion_by(lookup, declaration.declared) {
            links.push(link)?;
        }
    }
    Ok(links)
}

/// That what a declaration stands in includes a module.
fn inclusion_by(lookup: &Lookup, declared: Declared) -> Option<Link>
    requires { AreNames lookup.now.core.now lookup.now.names.now }
    ensures { result ≡ spec.inclusion_by lookup.now.core.now declared }
{
    match declared {
        Declared::Include { owner, included } => {
            let above = if_module(lookup, class_named(lookup, included));
            link(owner_class(lookup, owner), above)
        }
        _ => None,
    }
}

/// Each superclass that a declaration names.
fn named_superclasses(
    alloc: Global,
    lookup: &Lookup,
    declared: &[Declaration],
) -> Result<Vec<Link>, NoMemory>
    requires names { AreNames lookup.now.core.now lookup.now.names.now }
    requires declared { declared.now ≡ declaring.declarations lookup.now.core.now.rows }
    ensures { IfOk result (λ links. links.items ≡ spec.named_superclasses lookup.now.core.now) }
{
    let mut links = Vec::new(alloc);
    for declaration in declared {
        if let Some(link) = superclass_by(lookup, declaration.declared) {
            links.push(link)?;
        }
    }
    Ok(links)
}

/// That a declaration of a class names a superclass.
fn superclass_by(lookup: &Lookup, declared: Declared) -> Option<Link>
    requires { AreNames lookup.now.core.now lookup.now.names.now }
    ensures { result ≡ spec.superclass_by lookup.now.core.now declared }
{
    match declared {
        Declared::Class {
            name,
            superclass: Some(superclass),
        } => {
            let above = if_class(lookup, class_named(lookup, superclass));
            link(class_named(lookup, name), above)
        }
        _ => None,
    }
}

/// The class or module that a declaration stands in.
fn owner_class(lookup: &Lookup, owner: Owner) -> Option<ClassId>
    requires { AreNames lookup.now.core.now lookup.now.names.now }
    ensures { result ≡ spec.owner_class lookup.now.core.now owner }
{
    match owner {
        Owner::TopLevel => None,
        Owner::Of(name) => class_named(lookup, name),
    }
}

fn if_class(lookup: &Lookup, class: Option<ClassId>) -> Option<ClassId>
    requires { AreNames lookup.now.core.now lookup.now.names.now }
    ensures { result ≡ spec.if_class lookup.now.core.now class }
{
    let class = class?;
    if is_class(lookup, class.0 as usize) {
        Some(class)
    } else {
        None
    }
}

fn if_module(lookup: &Lookup, class: Option<ClassId>) -> Option<ClassId>
    requires { AreNames lookup.now.core.now lookup.now.names.now }
    ensures { result ≡ spec.if_module lookup.now.core.now class }
{
    let class = class?;
    if is_class(lookup, class.0 as usize) {
        None
    } else {
        Some(class)
    }
}

fn link(below: Option<ClassId>, above: Option<ClassId>) -> Option<Link>
    ensures { result ≡ spec.link below above }
{
    match (below, above) {
        (Some(below), Some(above)) => Some(Link { below, above }),
        _ => None,
    }
}

/// What stands above a class or module by these links.
fn above(alloc: Global, links: &[Link], class: ClassId) -> Result<Vec<ClassId>, NoMemory>
    ensures { IfOk result (λ list. list.items ≡ spec.above links.now class) }
{
    let mut list = Vec::new(alloc);
    for link in links {
        if link.below == class {
            list.push(link.above)?;
        }
    }
    Ok(list)
}

/// The superclass of a class or module, where it has one.
fn superclasses_of(
    alloc: Global,
    kinds: &[bool],
    superclasses: &[Link],
    class: ClassId,
) -> Result<Vec<ClassId>, NoMemory>
    ensures { IfOk result (λ list. list.items ≡ making.superclasses_by kinds.now superclasses.now class) }
{
    let named = above(alloc, superclasses, class)?;
    let mut list = Vec::new(alloc);
    if class.0 != 0 && is_kind(kinds, class) {
        list.push(first_or(ClassId(0), named.as_slice()))?;
    }
    Ok(list)
}

fn first_or(class: ClassId, list: &[ClassId]) -> ClassId
    ensures { result ≡ spec.first_or class list.now }
{
    match list.first() {
        Some(first) => *first,
        None => class,
    }
}

fn is_kind(kinds: &[bool], class: ClassId) -> bool
    ensures { result ≡ making.is_kind kinds.now class }
{
    match kinds.get(class.0 as usize) {
        Some(kind) => *kind,
        None => false,
    }
}

/// What stands directly above each class and module.
fn all_parents(
    alloc: Global,
    kinds: &[bool],
    inclusions: &[Link],
    superclasses: &[Link],
) -> Result<Vec<Parents>, NoMemory>
    ensures { IfOk result (λ parents. parents.items ≡ making.all_parents kinds.now inclusions.now superclasses.now) }
{
    let mut parents = Vec::new(alloc);
    for number in 0..kinds.len() {
        if number > u32::MAX as usize {
            return Err(NoMemory);
        }
        let class = ClassId(number as u32);
        let each = parents_of(alloc, kinds, inclusions, superclasses, class)?;
        parents.push(each)?;
    }
    Ok(parents)
}

/// What stands directly above a class or module.
fn parents_of(
    alloc: Global,
    kinds: &[bool],
    inclusions: &[Link],
    superclasses: &[Link],
    class: ClassId,
) -> Result<Parents, NoMemory>
    ensures { IfOk result (λ parents. parents ≡ making.parents_by kinds.now inclusions.now superclasses.now class) }
{
    let modules = above(alloc, inclusions, class)?;
    let superclasses = superclasses_of(alloc, kinds, superclasses, class)?;
    Ok(Parents {
        modules: ClassList::of(modules),
        superclasses: ClassList::of(superclasses),
    })
}
