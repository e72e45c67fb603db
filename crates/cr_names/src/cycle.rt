//! Which classes and modules stand above themselves.
ghost use Rattle.std.specs.Prelude.{◌≡◌, ◌<◌, ◌↔◌, true, length, IfOk, IsTrue};
ghost use Rattle.cr_base.specs.declared.ids.ClassId.{ClassId};
ghost use Rattle.cr_ancestors.specs.Above.{IsAbove};
ghost use Rattle.cr_names.specs.Above as spec;
ghost use Rattle.cr_names.specs.Names as names;
ghost use Rattle.cr_names.specs.Cyclic as cyclic;
ghost use Rattle.cr_names.specs.Tables.{AreNames};

use crate::above::hierarchy;
use crate::kind::{Kind, declared_by};
use crate::lookup::Lookup;
use cr_ancestors::{Ancestors, AncestorsFault, Hierarchy};
use cr_base::{ClassId, NameId, NoMemory};
use cr_core::Row;
use std::alloc::Global;

/// What stands directly above the classes and modules of a core tree, and whether it is sure that none stands above itself.
#[derive(Drop)]
pub struct Parentage {
    pub(crate) hierarchy: Hierarchy,
    pub(crate) acyclic: bool,
}

impl Lookup<'_> {
    /// What stands above the classes and modules of the core tree.
    pub fn parentage(&self, alloc: Global) -> Result<Parentage, NoMemory>
        requires { AreNames self.now.core.now self.now.names.now }
        ensures { IfOk result (cyclic.IsParentage self.now.core.now) }
    {
        let hierarchy = hierarchy(alloc, self)?;
        let acyclic = is_acyclic(alloc, &hierarchy)?;
        Ok(Parentage { hierarchy, acyclic })
    }
}

/// Whether it is sure that nothing stands above itself.
fn is_acyclic(alloc: Global, hierarchy: &Hierarchy) -> Result<bool, NoMemory>
    ensures { IfOk result (λ sure. sure ≡ true → (class : ClassId) → ¬ IsAbove hierarchy.now class class) }
{
    match Ancestors::of(alloc, hierarchy) {
        Ok(_) => Ok(true),
        Err(AncestorsFault::Cyclic) => Ok(false),
        Err(AncestorsFault::NoMemory) => Err(NoMemory),
    }
}

/// Whether a row is the first declaration of a class or module that stands above itself.
pub(crate) fn is_cyclic(
    alloc: Global,
    lookup: &Lookup,
    parentage: &Parentage,
    number: usize,
    row: &Row,
) -> Result<bool, NoMemory>
    requires names { AreNames lookup.now.core.now lookup.now.names.now }
    requires parentage { cyclic.IsParentage lookup.now.core.now parentage.now }
    ensures { IfOk result (λ yes. IsTrue yes ↔ cyclic.IsCyclic lookup.now.core.now number (names.declared_by row.now.form)) }
{
    let Some(name) = declared_by(row.form) else {
        return Ok(false);
    };
    if !is_number(number, lookup.first(Kind::Either, name)) {
        return Ok(false);
    }
    is_above_itself(alloc, parentage, name)
}

fn is_number(number: usize, first: Option<usize>) -> bool
    ensures { IsTrue result ↔ (first ≡ Some number) }
{
    match first {
        None => false,
        Some(other) => other == number,
    }
}

fn is_above_itself(alloc: Global, parentage: &Parentage, name: NameId) -> Result<bool, NoMemory>
    requires { parentage.now.acyclic ≡ true → (class : ClassId) → ¬ IsAbove parentage.now.hierarchy class class }
    ensures { IfOk result (λ yes. IsTrue yes ↔ IsAbove parentage.now.hierarchy (spec.class_id name.0) (spec.class_id name.0)) }
{
    if parentage.acyclic || (name.0 as usize) >= parentage.hierarchy.len() {
        return Ok(false);
    }
    parentage.hierarchy.is_above_itself(alloc, ClassId(name.0))
}
