//! The names of a core tree, in tables by which decisions go.
ghost use Rattle.std.specs.Prelude.{◌≡◌, ◌&&◌, ℕ, not, length, map, is_some, IfOk};
ghost use Rattle.cr_base.specs.declared.ids.NameId.{NameId};
ghost use Rattle.cr_names.specs.declared.kind.Kind.TheVariants as kind;
ghost use Rattle.cr_names.specs.Names as spec;
ghost use Rattle.cr_names.specs.Tables as tables;

use crate::around::classes_around;
use crate::built_in::{built_in, built_in_count};
use crate::firsts::{first_places, first_rows, told};
use crate::kind::{Kind, declared_by};
use cr_base::{NameId, NoMemory};
use cr_core::{CoreTree, Row};
use std::alloc::Global;
use std::marker::Model;

/// The names of a core tree: for each name what rows tell of it first, and for each row the class around it. Contracts see the lists.
#[derive(Drop)]
pub struct Names {
    built_in: Vec<Option<usize>>,
    classes: Vec<Option<usize>>,
    modules: Vec<Option<usize>>,
    either: Vec<Option<usize>>,
    heirs: Vec<Option<usize>>,
    parameters: Vec<Option<usize>>,
    around: Vec<Option<usize>>,
    own: Vec<NameId>,
    places: Vec<Option<usize>>,
}

impl Model for Names {
    ghost use Rattle.cr_names.specs.Tables.{Naming};

    ghost Value = { Naming };

    ghost view = { λ n. record {
      built_in = n.built_in.items;
      classes = n.classes.items;
      modules = n.modules.items;
      either = n.either.items;
      heirs = n.heirs.items;
      parameters = n.parameters.items;
      around = n.around.items;
      own = n.own.items;
      places = n.places.items;
    } };
}

impl Names {
    /// The names of a core tree. More than 2 ^ 32 classes and modules are too many for memory.
    pub fn of(alloc: Global, core: &CoreTree) -> Result<Names, NoMemory>
        ensures { IfOk result (tables.AreNames core.now) }
    {
        let built_in = built_ins(alloc, core.names())?;
        let either = first_rows(alloc, core, Kind::Either)?;
        let own = own_names(alloc, core.rows(), built_in.as_slice(), either.as_slice())?;
        if own.len() > u32::MAX as usize - built_in_count() {
            return Err(NoMemory);
        }
        let places = places(alloc, core, own.as_slice())?;
        let classes = first_rows(alloc, core, Kind::Class)?;
        let modules = first_rows(alloc, core, Kind::Module)?;
        let heirs = first_rows(alloc, core, Kind::Heir)?;
        let parameters = first_rows(alloc, core, Kind::Parameter)?;
        let around = around(alloc, core)?;
        Ok(Names {
            built_in,
            classes,
            modules,
            either,
            heirs,
            parameters,
            around,
            own,
            places,
        })
    }

    /// The number of the built-in class of this name, as the table has it.
    pub(crate) fn built_in(&self, name: NameId) -> Option<usize>
        ensures { result ≡ tables.told self.now.built_in name.0 }
    {
        told(self.built_in.as_slice(), name.0 as usize)
    }

    /// The first row that tells something of this kind of the name, as the table has it.
    pub(crate) fn first(&self, kind: Kind, name: NameId) -> Option<usize>
        ensures { result ≡ tables.told (tables.table_of self.now kind) name.0 }
    {
        let number = name.0 as usize;
        match kind {
            Kind::Class => told(self.classes.as_slice(), number),
            Kind::Module => told(self.modules.as_slice(), number),
            Kind::Either => told(self.either.as_slice(), number),
            Kind::Heir => told(self.heirs.as_slice(), number),
            Kind::Parameter => told(self.parameters.as_slice(), number),
        }
    }

    /// The class around a row, as the table has it.
    pub(crate) fn around(&self, row: usize) -> Option<usize>
        ensures { result ≡ tables.told self.now.around row }
    {
        told(self.around.as_slice(), row)
    }

    /// The place of a name among those of classes and modules that are not built in, as the table has it.
    pub(crate) fn place(&self, name: NameId) -> Option<usize>
        ensures { result ≡ tables.told self.now.places name.0 }
    {
        told(self.places.as_slice(), name.0 as usize)
    }

    /// The names of the classes and modules that are not built in, in the order of their first declarations.
    pub fn own(&self) -> &[NameId]
        ensures { result.now ≡ self.now.own }
    {
        self.own.as_slice()
    }
}

/// For each name, the number of the built-in class that it is the name of.
fn built_ins(alloc: Global, names: &cr_syntax::Names) -> Result<Vec<Option<usize>>, NoMemory>
    ensures { IfOk result (λ table. table.items ≡ map spec.place_of_path names.now) }
{
    let mut table = Vec::new(alloc);
    for number in 0..names.len() {
        if number > u32::MAX as usize {
            return Err(NoMemory);
        }
        table.push(built_in(names.text(NameId(number as u32))))?;
    }
    Ok(table)
}

/// The names of the classes and modules that are not built in, in the order of their first declarations.
fn own_names(
    alloc: Global,
    rows: &[Row],
    built_in: &[Option<usize>],
    declared: &[Option<usize>],
) -> Result<Vec<NameId>, NoMemory>
    ensures { IfOk result (λ names. names.items ≡ spec.own_from (tables.by_name built_in.now) (tables.by_name declared.now) 0 rows.now) }
{
    let mut own = Vec::new(alloc);
    for (number, row) in rows.iter().enumerate() {
        if let Some(name) = own_at(built_in, declared, number, declared_by(row.form)) {
            own.push(name)?;
        }
    }
    Ok(own)
}

/// The name that a row declares, where it is the first that does and the name is that of no built-in class.
fn own_at(
    built_in: &[Option<usize>],
    declared: &[Option<usize>],
    number: usize,
    name: Option<NameId>,
) -> Option<NameId>
    ensures { result ≡ spec.own_at (tables.by_name built_in.now) (tables.by_name declared.now) number name }
{
    let name = name?;
    let index = name.0 as usize;
    if is_own(told(built_in, index), told(declared, index), number) {
        Some(name)
    } else {
        None
    }
}

fn is_own(built_in: Option<usize>, first: Option<usize>, number: usize) -> bool
    ensures { result ≡ (not (is_some built_in) && spec.is_there number first) }
{
    built_in.is_none() && is_there(number, first)
}

fn is_there(number: usize, first: Option<usize>) -> bool
    ensures { result ≡ spec.is_there number first }
{
    match first {
        None => false,
        Some(other) => other == number,
    }
}

/// For each name, its place among the own names.
#[tactic(auto, unfolding(crate::specs::Names::own_place))]
fn places(alloc: Global, core: &CoreTree, own: &[NameId]) -> Result<Vec<Option<usize>>, NoMemory>
    requires { own.now ≡ spec.own_names core.now }
    ensures { IfOk result (λ table. (name : NameId) → tables.by_name table.items name ≡ spec.own_place core.now name) }
{
    let _ = core.rows();
    let keys = own_keys(alloc, own)?;
    first_places(alloc, core.names().len(), keys.as_slice())
}

fn own_keys(alloc: Global, own: &[NameId]) -> Result<Vec<Option<NameId>>, NoMemory>
    ensures { IfOk result (λ keys. keys.items ≡ spec.own_keys own.now) }
{
    Ok(own.iter().map(|name| Some(*name)).collect(alloc)?)
}

fn around(alloc: Global, core: &CoreTree) -> Result<Vec<Option<usize>>, NoMemory>
    ensures { IfOk result (λ table. (n : ℕ) → tables.told table.items n ≡ spec.class_around core.now.rows n) }
{
    classes_around(alloc, core.rows())
}
