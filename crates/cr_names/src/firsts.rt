//! Tables of first places, by names.
ghost use Rattle.std.specs.Prelude.{◌≡◌, ℕ, length, map, replicate, slice_set, Some, None, IfOk};
ghost use Rattle.cr_base.specs.declared.ids.NameId.{NameId};
ghost use Rattle.cr_core.specs.Tree.{IsCore};
ghost use Rattle.cr_names.specs.Names.{keys, first};
ghost use Rattle.cr_names.specs.Tables as tables;

use crate::kind::{Kind, named_by};
use cr_base::{NameId, NoMemory};
use cr_core::{CoreTree, Row};
use std::alloc::Global;

/// What a table tells of a number.
pub(crate) fn told(table: &[Option<usize>], number: usize) -> Option<usize>
    ensures { result ≡ tables.told table.now number }
{
    match table.get(number) {
        Some(place) => *place,
        None => None,
    }
}

/// For each name, the number of the first row that tells something of this kind of it.
pub(crate) fn first_rows(
    alloc: Global,
    core: &CoreTree,
    kind: Kind,
) -> Result<Vec<Option<usize>>, NoMemory>
    ensures { IfOk result (λ table. (name : NameId) → tables.by_name table.items name ≡ first kind core.now name) }
{
    let rows = core.rows();
    let keys = keys(alloc, rows, kind)?;
    first_places(alloc, core.names().len(), keys.as_slice())
}

fn keys(alloc: Global, rows: &[Row], kind: Kind) -> Result<Vec<Option<NameId>>, NoMemory>
    ensures { IfOk result (λ list. list.items ≡ keys kind rows.now) }
{
    Ok(rows.iter().map(|row| named_by(kind, row)).collect(alloc)?)
}

/// For each name below the count, its first place in the list.
pub(crate) fn first_places(
    alloc: Global,
    count: usize,
    keys: &[Option<NameId>],
) -> Result<Vec<Option<usize>>, NoMemory>
    ensures { IfOk result (λ table. table.items ≡ tables.noted_from (replicate count None) 0 keys.now) }
{
    let mut table = vec![in alloc; None; count]?;
    for (place, key) in keys.iter().enumerate() {
        note(table.as_mut_slice(), *key, place);
    }
    Ok(table)
}

/// Notes the place of a name that has none yet.
fn note(table: &mut [Option<usize>], key: Option<NameId>, place: usize)
    ensures { table.new ≡ tables.noted table.old key place }
{
    let Some(name) = key else {
        return;
    };
    let number = name.0 as usize;
    if told(table, number).is_none() {
        set(table, number, place);
    }
}

fn set(table: &mut [Option<usize>], number: usize, place: usize)
    ensures { table.new ≡ slice_set table.old number (Some place) }
{
    if number < table.len() {
        table[number] = Some(place);
    }
}
