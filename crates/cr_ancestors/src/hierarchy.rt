//! The classes and modules of a program by what stands directly above each.
ghost use Rattle.std.specs.Prelude.{◌≡◌, ◌↔◌, ◌<◌, length, map, slice_get, Some, All, Contains, IfOk, OnOk, IsErrOf, IsTrue, []};
ghost use Rattle.cr_base.specs.declared.ids.ClassId.{ClassId};
ghost use Rattle.cr_ancestors.specs.Above.{ups, IsAbove, IsWithin};
ghost use Rattle.cr_ancestors.specs.Line.{kept};

use crate::class_list::{ClassList, has};
use crate::parents::{Parents, ups};
use cr_base::{ClassId, NoMemory};
use std::alloc::Global;
use std::marker::Model;

/// Why there is no hierarchy.
#[derive(Clone, Copy, Debug, PartialEq, Eq)]
pub enum HierarchyFault {
    /// Something that stands above a class or module is none of them, or they are more than numbers can tell apart.
    Foreign,
    /// Memory ran out.
    NoMemory,
}

impl From<NoMemory> for HierarchyFault {
    ghost use Rattle.std.specs.Prelude.{◌≡◌};
    ghost use Rattle.cr_ancestors.specs.declared.hierarchy.HierarchyFault.TheVariants as fault;

    ghost from_gives = { λ _ made. made ≡ fault.NoMemory };

    fn from(_: NoMemory) -> HierarchyFault {
        HierarchyFault::NoMemory
    }
}

/// The classes and modules of a program, by their numbers. Contracts see, for each, the list of what stands directly above it,
/// in the order of lookup.
#[derive(Debug, Drop)]
pub struct Hierarchy {
    ups: Vec<ClassList>,
}

impl Model for Hierarchy {
    ghost use Rattle.std.specs.Prelude.{List};
    ghost use Rattle.cr_base.specs.declared.ids.ClassId.{ClassId};
    ghost use Rattle.cr_ancestors.specs.Above.{IsWithin};

    ghost Value = { List (List ClassId) };

    ghost view = { λ hierarchy. hierarchy.ups.items };

    ghost invariant = { λ hierarchy. IsWithin hierarchy.ups.items };
}

impl Hierarchy {
    /// The hierarchy of classes and modules with these parents: `Foreign` exactly where one of these is none of them.
    pub fn of(alloc: Global, parents: &[Parents]) -> Result<Hierarchy, HierarchyFault>
        ensures ok { IfOk result (λ hierarchy. hierarchy ≡ map ups parents.now) }
        ensures within { OnOk result (IsWithin (map ups parents.now)) }
        ensures foreign { IsErrOf result HierarchyFault.Foreign → ¬ IsWithin (map ups parents.now) }
    {
        let ups = all_ups(alloc, parents)?;
        if !is_within(ups.as_slice()) {
            return Err(HierarchyFault::Foreign);
        }
        Ok(Hierarchy { ups })
    }

    /// How many classes and modules there are.
    pub fn len(&self) -> usize
        ensures length { result ≡ length self.now }
        ensures within { IsWithin self.now }
    {
        self.ups.len()
    }

    /// Whether there is none.
    pub fn is_empty(&self) -> bool
        ensures { IsTrue result ↔ (self.now ≡ []) }
    {
        self.len() == 0
    }

    /// What stands directly above a class or module, in the order of lookup: its modules, the last included first, and then
    /// its superclass.
    pub fn ups(&self, class: ClassId) -> &[ClassId]
        requires { class.0 < length self.now }
        ensures { slice_get self.now class.0 ≡ Some result.now }
    {
        self.ups[class.0 as usize].as_slice()
    }

    /// All that stands above a class or module, each once, in the order in which it is found.
    pub fn above(&self, alloc: Global, class: ClassId) -> Result<Vec<ClassId>, NoMemory>
        requires { class.0 < length self.now }
        ensures { IfOk result (λ found. (above : ClassId) → Contains found.items above ↔ IsAbove self.now class above) }
    {
        let _ = self.len();
        let mut found = Vec::new(alloc);
        add(&mut found, self.ups(class))?;
        let mut done = 0;
        'upwards: while done < found.len() {
            let next = at(found.as_slice(), done);
            add(&mut found, self.ups(next))?;
            done += 1;
        }
        Ok(found)
    }

    /// Whether a class or module stands above itself.
    pub fn is_above_itself(&self, alloc: Global, class: ClassId) -> Result<bool, NoMemory>
        requires { class.0 < length self.now }
        ensures { IfOk result (λ yes. IsTrue yes ↔ IsAbove self.now class class) }
    {
        let above = self.above(alloc, class)?;
        Ok(has(above.as_slice(), class))
    }
}

fn at(classes: &[ClassId], n: usize) -> ClassId
    requires { n < length classes.now }
    ensures { slice_get classes.now n ≡ Some result }
{
    classes[n]
}

/// Puts last those that are not listed yet.
fn add(found: &mut Vec<ClassId>, classes: &[ClassId]) -> Result<(), NoMemory>
    ensures { OnOk result (found.new.items ≡ kept found.old.items classes.now) }
{
    for class in classes {
        if !has(found.as_slice(), *class) {
            found.push(*class)?;
        }
    }
    Ok(())
}

fn all_ups(alloc: Global, parents: &[Parents]) -> Result<Vec<ClassList>, NoMemory>
    ensures { IfOk result (λ lists. lists.items ≡ map ups parents.now) }
{
    let mut lists = Vec::with_capacity(alloc, parents.len())?;
    for each in parents {
        lists.push(ups(alloc, each)?)?;
    }
    Ok(lists)
}

fn is_within(lists: &[ClassList]) -> bool
    ensures { IsTrue result ↔ IsWithin lists.now }
{
    let count = lists.len();
    count <= 1 << 32 && lists.iter().all(|list| are_below(list.as_slice(), count))
}

fn are_below(list: &[ClassId], count: usize) -> bool
    ensures { IsTrue result ↔ All (λ up. up.0 < count) list.now }
{
    list.iter().all(|up| (up.0 as usize) < count)
}
