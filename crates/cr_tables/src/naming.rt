//! What the names of a core tree stand for, by the numbers of classes and modules.
ghost use Rattle.std.specs.Prelude.{◌≡◌, IfOk};
ghost use Rattle.cr_names.specs.Tables.{AreNames};
ghost use Rattle.cr_tables.specs.Numbers as numbers;
ghost use Rattle.cr_tables.specs.Tables as tables;

use cr_base::{ClassId, NameId, NoMemory};
use cr_names::{BUILT_IN, Lookup};
use std::alloc::Global;

/// For each name, by its number, the class or module that it stands for.
pub(crate) fn all_named(alloc: Global, lookup: &Lookup) -> Result<Vec<Option<ClassId>>, NoMemory>
    requires { AreNames lookup.now.core.now lookup.now.names.now }
    ensures { IfOk result (λ named. named.items ≡ tables.all_named lookup.now.core.now) }
{
    let mut named = Vec::new(alloc);
    for number in 0..lookup.core.names().len() {
        if number > u32::MAX as usize {
            return Err(NoMemory);
        }
        named.push(class_named(lookup, NameId(number as u32)))?;
    }
    Ok(named)
}

/// For each class and module, by its number, whether it is a class.
pub(crate) fn all_kinds(alloc: Global, lookup: &Lookup) -> Result<Vec<bool>, NoMemory>
    requires { AreNames lookup.now.core.now lookup.now.names.now }
    ensures { IfOk result (λ kinds. kinds.items ≡ tables.all_kinds lookup.now.core.now) }
{
    let mut kinds = Vec::new(alloc);
    for number in 0..lookup.class_count() {
        kinds.push(is_class(lookup, number))?;
    }
    Ok(kinds)
}

/// Whether the number is that of a class.
pub(crate) fn is_class(lookup: &Lookup, number: usize) -> bool
    requires { AreNames lookup.now.core.now lookup.now.names.now }
    ensures { result ≡ numbers.is_class lookup.now.core.now (numbers.class_id number) }
{
    if number < BUILT_IN.len() {
        return true;
    }
    match lookup.names.own().get(number - BUILT_IN.len()) {
        Some(name) => lookup.is_own_class(*name),
        None => false,
    }
}

/// The class or module of a name.
pub(crate) fn class_named(lookup: &Lookup, name: NameId) -> Option<ClassId>
    requires { AreNames lookup.now.core.now lookup.now.names.now }
    ensures { result ≡ numbers.class_named lookup.now.core.now name }
{
    lookup.class_of_name(name)
}
