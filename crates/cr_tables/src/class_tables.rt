//! The classes and modules of a program in tables: what names stand for, which are classes, and where a lookup goes from each.
ghost use Rattle.std.specs.Prelude.{◌≡◌, ◌<◌, ◌+◌, ◌^◌, length, map, take, IfOk, OnOk, IsErrOf};
ghost use Rattle.cr_base.specs.declared.ids.ClassId.{ClassId};
ghost use Rattle.cr_ancestors.specs.Above.{IsAbove};
ghost use Rattle.cr_names.specs.Names.{class_count, own_names};
ghost use Rattle.cr_names.specs.Tables.{AreNames};
ghost use Rattle.cr_tables.specs.Classes.{AreClasses};
ghost use Rattle.cr_tables.specs.Hierarchy as spec;
ghost use Rattle.cr_tables.specs.Making as making;
ghost use Rattle.cr_tables.specs.Tables as tables;

use crate::above::hierarchy;
use crate::naming::{all_kinds, all_named};
use cr_ancestors::{Ancestors, AncestorsFault, reckoned_law};
use cr_base::{ClassId, NameId, NoMemory};
use cr_core::{CoreTree, Listed};
use cr_lookup::Place;
use cr_names::{Lookup, Names};
use std::alloc::Global;
use std::marker::Model;

/// The classes and modules of a program in tables. Contracts see the lists that they keep.
#[derive(Drop)]
pub struct Classes {
    /// For each name, by its number, the class or module that it stands for.
    named: Vec<Option<ClassId>>,
    /// The names of the classes and modules that are not built in, in the order of their numbers.
    own: Vec<NameId>,
    /// For each class and module, by its number, whether it is a class.
    kinds: Vec<bool>,
    lines: Ancestors,
    /// For each class and module, by its number, its places, and that of the top level last.
    places: Vec<Listed<Place>>,
}

impl Model for Classes {
    ghost use Rattle.cr_tables.specs.Classes.{ClassLists};

    ghost Value = { ClassLists };

    ghost view = { λ c. record {
      named = c.named.items;
      own = c.own.items;
      kinds = c.kinds.items;
      lines = c.lines;
      places = c.places.items;
    } };
}

impl Classes {
    /// The classes and modules of a core tree: `Cyclic` exactly where one of them stands above itself. Any other error is want of
    /// memory; as many as numbers can tell apart are too many for it.
    pub fn of(alloc: Global, core: &CoreTree) -> Result<Classes, AncestorsFault>
        ensures ok { IfOk result (AreClasses core.now) }
        ensures acyclic { OnOk result ((class : ClassId) → ¬ IsAbove (spec.hierarchy core.now) class class) }
        ensures cyclic { IsErrOf result AncestorsFault.Cyclic → (class : ClassId) × IsAbove (spec.hierarchy core.now) class class }
    {
        let names = Names::of(alloc, core)?;
        classes_of(
            alloc,
            &Lookup {
                core,
                names: &names,
            },
        )
    }
}

fn classes_of(alloc: Global, lookup: &Lookup) -> Result<Classes, AncestorsFault>
    requires { AreNames lookup.now.core.now lookup.now.names.now }
    ensures ok { IfOk result (AreClasses lookup.now.core.now) }
    ensures acyclic { OnOk result ((class : ClassId) → ¬ IsAbove (spec.hierarchy lookup.now.core.now) class class) }
    ensures cyclic { IsErrOf result AncestorsFault.Cyclic → (class : ClassId) × IsAbove (spec.hierarchy lookup.now.core.now) class class }
{
    let count = lookup.class_count();
    if count >= u32::MAX as usize {
        return Err(AncestorsFault::NoMemory);
    }
    let named = all_named(alloc, lookup)?;
    let kinds = all_kinds(alloc, lookup)?;
    let lines = all_lines(alloc, lookup, kinds.as_slice())?;
    let places = all_places(alloc, lookup, &lines)?;
    let own = own_names(alloc, lookup)?;
    Ok(Classes {
        named,
        own,
        kinds,
        lines,
        places,
    })
}

/// The names of the classes and modules that are not built in.
fn own_names(alloc: Global, lookup: &Lookup) -> Result<Vec<NameId>, NoMemory>
    requires { AreNames lookup.now.core.now lookup.now.names.now }
    ensures { IfOk result (λ own. own.items ≡ own_names lookup.now.core.now) }
{
    Ok(Vec::from_slice(alloc, lookup.names.own())?)
}

/// The ancestors of each class and module.
fn all_lines(alloc: Global, lookup: &Lookup, kinds: &[bool]) -> Result<Ancestors, AncestorsFault>
    requires names { AreNames lookup.now.core.now lookup.now.names.now }
    requires kinds { kinds.now ≡ tables.all_kinds lookup.now.core.now }
    ensures ok { IfOk result (λ lines. lines ≡ spec.all_ancestors lookup.now.core.now) }
    ensures acyclic { OnOk result ((class : ClassId) → ¬ IsAbove (spec.hierarchy lookup.now.core.now) class class) }
    ensures cyclic { IsErrOf result AncestorsFault.Cyclic → (class : ClassId) × IsAbove (spec.hierarchy lookup.now.core.now) class class }
{
    let hierarchy = hierarchy(alloc, lookup, kinds)?;
    let _ = hierarchy.len();
    reckoned_law();
    let lines = Ancestors::of(alloc, &hierarchy)?;
    Ok(lines)
}

/// The places of each class and module.
fn all_places(
    alloc: Global,
    lookup: &Lookup,
    lines: &Ancestors,
) -> Result<Vec<Listed<Place>>, NoMemory>
    requires names { AreNames lookup.now.core.now lookup.now.names.now }
    requires lines { lines.now ≡ spec.all_ancestors lookup.now.core.now }
    ensures { IfOk result (λ places. places.items ≡ tables.all_places lookup.now.core.now) }
{
    let count = lookup.class_count();
    if count > u32::MAX as usize {
        return Err(NoMemory);
    }
    let places = places_by(alloc, lines, count as u32)?;
    Ok(places)
}

/// The places of each class and module with these ancestors, where this number is that of the top level.
fn places_by(alloc: Global, lines: &Ancestors, top: u32) -> Result<Vec<Listed<Place>>, NoMemory>
    requires { length lines.now ≡ top }
    ensures { IfOk result (λ places. places.items ≡ map (making.places_by top) lines.now) }
{
    let mut places = Vec::new(alloc);
    for number in 0..top {
        let line = lines.get(ClassId(number));
        let each = places_of(alloc, line, top)?;
        places.push(each)?;
    }
    Ok(places)
}

/// The places of a class or module with these ancestors.
fn places_of(alloc: Global, line: &[ClassId], top: u32) -> Result<Listed<Place>, NoMemory>
    ensures { IfOk result (λ places. places ≡ making.places_by top line.now) }
{
    let mut places = Vec::new(alloc);
    for class in line {
        places.push(Place(class.0))?;
    }
    places.push(Place(top))?;
    Ok(Listed::of(places))
}
