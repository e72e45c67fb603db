//! The order of lookup: the ancestors of every class and module. Each list is made from those of what stands directly above, in
//! rounds, so modules that include one another in layers cost no walk of each way through them.
ghost use Rattle.std.specs.Prelude.{◌≡◌, ◌<◌, ℕ, [], ◌∷◌, ◌↔◌, All, length, slice_get, Some, IfOk, OnOk, IsErrOf, IsTrue};
ghost use Rattle.cr_base.specs.declared.ids.ClassId.{ClassId};
ghost use Rattle.cr_ancestors.specs.Above.{IsAbove};
ghost use Rattle.cr_ancestors.specs.Line.{kept, IsOnce, AreAll};
ghost use Rattle.cr_ancestors.specs.Making.{is_made, is_due, list_of, is_ready, joined, open_count, IsPartial, IsRound, IsMadeAt};

use crate::class_list::{ClassList, has};
use crate::hierarchy::Hierarchy;
use cr_base::{ClassId, NoMemory};
use std::alloc::Global;
use std::marker::Model;

/// Why the ancestors were not made.
#[derive(Clone, Copy, Debug, PartialEq, Eq)]
pub enum AncestorsFault {
    /// Some class or module stands above itself.
    Cyclic,
    /// Memory ran out.
    NoMemory,
}

impl From<NoMemory> for AncestorsFault {
    ghost use Rattle.std.specs.Prelude.{◌≡◌};
    ghost use Rattle.cr_ancestors.specs.declared.ancestors.AncestorsFault.TheVariants as fault;

    ghost from_gives = { λ _ made. made ≡ fault.NoMemory };

    fn from(_: NoMemory) -> AncestorsFault {
        AncestorsFault::NoMemory
    }
}

/// The ancestors of every class and module of a program. Contracts see the list of these lists, by the numbers of the classes and
/// modules.
#[derive(Debug, Drop)]
pub struct Ancestors {
    lists: Vec<ClassList>,
}

impl Model for Ancestors {
    ghost use Rattle.std.specs.Prelude.{List};
    ghost use Rattle.cr_base.specs.declared.ids.ClassId.{ClassId};

    ghost Value = { List (List ClassId) };

    ghost view = { λ ancestors. ancestors.lists.items };
}

impl Ancestors {
    /// The ancestors of every class and module, in the order of lookup: `Cyclic` exactly where one stands above itself.
    pub fn of(alloc: Global, hierarchy: &Hierarchy) -> Result<Ancestors, AncestorsFault>
        ensures ok { IfOk result (AreAll hierarchy.now) }
        ensures acyclic { OnOk result ((class : ClassId) → ¬ IsAbove hierarchy.now class class) }
        ensures cyclic { IsErrOf result AncestorsFault.Cyclic → (class : ClassId) × (class.0 < length hierarchy.now) × IsAbove hierarchy.now class class }
    {
        let count = hierarchy.len();
        let mut lists = open_lists(alloc, count)?;
        let mut left = count;
        'rounds: while left > 0 {
            let now = make_due(alloc, hierarchy, lists.as_mut_slice())?;
            if now >= left {
                return Err(AncestorsFault::Cyclic);
            }
            left = now;
        }
        Ok(Ancestors { lists })
    }

    /// The ancestors of a class or module, in the order of lookup.
    pub fn get(&self, class: ClassId) -> &[ClassId]
        requires { class.0 < length self.now }
        ensures { slice_get self.now class.0 ≡ Some result.now }
    {
        self.lists[class.0 as usize].as_slice()
    }

    /// Of how many classes and modules it has the ancestors.
    pub fn len(&self) -> usize
        ensures { result ≡ length self.now }
    {
        self.lists.len()
    }

    /// Whether there is no class or module.
    pub fn is_empty(&self) -> bool
        ensures { IsTrue result ↔ (self.now ≡ []) }
    {
        self.len() == 0
    }
}

/// So many lists that are not made yet.
fn open_lists(alloc: Global, count: usize) -> Result<Vec<ClassList>, NoMemory>
    ensures many { IfOk result (λ lists. length lists.items ≡ count) }
    ensures open { IfOk result (λ lists. All (λ list. list ≡ []) lists.items) }
{
    let mut lists = Vec::with_capacity(alloc, count)?;
    for _ in 0..count {
        lists.push(ClassList::of(Vec::new(alloc)))?;
    }
    Ok(lists)
}

/// How many lists are not made yet.
fn open_count(lists: &[ClassList]) -> usize
    ensures { result ≡ open_count lists.now }
{
    let mut count = 0;
    for list in lists {
        if list.as_slice().is_empty() {
            count += 1;
        }
    }
    count
}

/// One round: makes each list that is due, in the order of the numbers, and counts those that are left.
fn make_due(
    alloc: Global,
    hierarchy: &Hierarchy,
    lists: &mut [ClassList],
) -> Result<usize, NoMemory>
    requires { IsPartial hierarchy.now lists.old }
    ensures round { OnOk result (IsRound hierarchy.now lists.old (length hierarchy.now) lists.new) }
    ensures left { IfOk result (λ left. left ≡ open_count lists.new) }
{
    for n in 0..hierarchy.len() {
        let class = ClassId(n as u32);
        make_at(alloc, class, hierarchy.ups(class), lists)?;
    }
    Ok(open_count(lists))
}

/// Makes the list of a class or module, where it is not made and those of what stands directly above are.
fn make_at(
    alloc: Global,
    class: ClassId,
    ups: &[ClassId],
    lists: &mut [ClassList],
) -> Result<(), NoMemory>
    requires once { All IsOnce lists.old }
    requires within { class.0 < length lists.old }
    ensures { OnOk result (IsMadeAt class.0 ups.now lists.old lists.new) }
{
    if !is_due(class, ups, lists) {
        return Ok(());
    }
    let list = joined(alloc, class, ups, lists)?;
    put(&mut lists[class.0 as usize], list);
    Ok(())
}

fn put(place: &mut ClassList, list: ClassList)
    ensures { place.new ≡ list }
{
    *place = list;
}

/// Whether the list of a class or module can be made now.
fn is_due(class: ClassId, ups: &[ClassId], lists: &[ClassList]) -> bool
    ensures { result ≡ is_due lists.now class.0 ups.now }
{
    list_of(lists, class).is_empty() && is_ready(lists, ups)
}

fn is_ready(lists: &[ClassList], ups: &[ClassId]) -> bool
    ensures { result ≡ is_ready lists.now ups.now }
{
    ups.iter().all(|up| is_made(lists, *up))
}

fn is_made(lists: &[ClassList], class: ClassId) -> bool
    ensures { result ≡ is_made (list_of lists.now class) }
{
    !list_of(lists, class).is_empty()
}

fn list_of(lists: &[ClassList], class: ClassId) -> &[ClassId]
    ensures { result.now ≡ list_of lists.now class }
{
    match lists.get(class.0 as usize) {
        Some(list) => list.as_slice(),
        None => &[],
    }
}

/// The class or module, and then the lists of what stands directly above, each place kept where it first stands.
fn joined(
    alloc: Global,
    class: ClassId,
    ups: &[ClassId],
    lists: &[ClassList],
) -> Result<ClassList, NoMemory>
    requires { All IsOnce lists.now }
    ensures { IfOk result (λ list. list ≡ joined lists.now (class ∷ []) ups.now) }
{
    let mut list = Vec::new(alloc);
    list.push(class)?;
    for up in ups {
        append_new(&mut list, list_of(lists, *up))?;
    }
    Ok(ClassList::of(list))
}

/// Puts last, in their order, those that are not listed yet. No two of them are one, so only what stood there before is looked at.
fn append_new(list: &mut Vec<ClassId>, more: &[ClassId]) -> Result<(), NoMemory>
    requires { IsOnce more.now }
    ensures { OnOk result (list.new.items ≡ kept list.old.items more.now) }
{
    let before = list.len();
    for class in more {
        if !has(&list.as_slice()[..before], *class) {
            list.push(*class)?;
        }
    }
    Ok(())
}
