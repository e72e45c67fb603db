//! The tables of a program, as what they keep of its core tree: for each name its class, for each class its ancestors and its places
//! of lookup, for each place its methods, and the declared methods in the order of the text.
ghost use Rattle.std.specs.Prelude.{◌≡◌, ◌<◌, ◌+◌, ◌^◌, length, map, slice_get, Some};
ghost use Rattle.cr_names.specs.Names.{class_count, text_of, line_at};
ghost use Rattle.cr_tables.specs.Hierarchy.{ancestors};
ghost use Rattle.cr_tables.specs.Numbers.{path, path_in, path_of, own_path};

use crate::def::Def;
use cr_ancestors::Ancestors;
use cr_base::{ClassId, NameId};
use cr_core::{CoreTree, Listed};
use cr_lookup::{MethodList, Place};
use cr_names::BUILT_IN;
use std::marker::Model;

/// The tables of a program. Contracts see its core tree.
#[derive(Drop)]
pub struct Tables {
    pub(crate) core: CoreTree,
    /// For each name, by its number, the class or module that it stands for.
    pub(crate) named: Vec<Option<ClassId>>,
    /// The names of the classes and modules that are not built in, in the order of their numbers.
    pub(crate) own: Vec<NameId>,
    /// For each class and module, by its number, whether it is a class.
    pub(crate) kinds: Vec<bool>,
    pub(crate) lines: Ancestors,
    /// For each class and module, by its number, its places, and that of the top level last.
    pub(crate) places: Vec<Listed<Place>>,
    /// For each place, by its number, its methods.
    pub(crate) methods: Vec<MethodList>,
    /// The declared methods. Their numbers stand behind those of the built-in ones.
    pub(crate) declared: Vec<Def>,
    /// The name `initialize`, where the program has it.
    pub(crate) initializer: Option<NameId>,
}

impl Model for Tables {
    ghost use Rattle.cr_core.specs.Tree.{Contents};
    ghost use Rattle.cr_tables.specs.Tables.{AreTables};

    ghost Value = { Contents };

    ghost view = { λ t. t.core };

    ghost invariant = { λ t. AreTables t.core (record {
      named = t.named.items;
      own = t.own.items;
      kinds = t.kinds.items;
      lines = t.lines;
      places = t.places.items;
      methods = t.methods.items;
      declared = t.declared.items;
      initializer = t.initializer;
    }) };
}

impl Tables {
    /// The core tree. Takes no memory.
    pub fn core(&self) -> &CoreTree
        ensures { result.now ≡ self.now }
    {
        &self.core
    }

    /// How many classes and modules there are. Their numbers are those below. Takes no memory.
    pub fn class_count(&self) -> u32
        ensures count { result ≡ class_count self.now }
        ensures few { result + 1 < 2 ^ 32 }
    {
        self.kinds.len() as u32
    }

    /// The path of a class or module. Takes no memory.
    pub fn path(&self, class: ClassId) -> &str
        ensures { result.now ≡ path self.now class }
    {
        let number = class.0 as usize;
        if number < BUILT_IN.len() {
            return line_path(&BUILT_IN, number);
        }
        self.own_path(number - BUILT_IN.len())
    }

    /// The name at a place among those of the classes and modules that are not built in.
    fn own_path(&self, place: usize) -> &str
        ensures { result.now ≡ own_path self.now place }
    {
        match self.own.get(place) {
            Some(name) => text_of(&self.core, *name),
            None => "",
        }
    }

    /// The ancestors of a class or module in the order of lookup, itself the first. None of a number that is no class's or
    /// module's. Takes no memory.
    pub fn ancestors(&self, class: ClassId) -> &[ClassId]
        ensures { result.now ≡ ancestors self.now class }
    {
        if (class.0 as usize) < self.lines.len() {
            return self.lines.get(class);
        }
        &[]
    }
}

/// The path of a line.
fn line_path(table: &[(&'static str, usize, bool)], at: usize) -> &'static str
    requires { at < length table.now }
    ensures { path_in (slice_get (map line_at table.now) at) ≡ result.now }
{
    path_at(table, at)
}

fn path_at(table: &[(&'static str, usize, bool)], at: usize) -> &'static str
    requires { at < length table.now }
    ensures { slice_get (map path_of table.now) at ≡ Some result.now }
{
    table[at].0
}

/// A name of a core tree; no text for what is none.
fn text_of(core: &CoreTree, name: NameId) -> &str
    ensures { result.now ≡ text_of core.now name }
{
    let names = core.names();
    if (name.0 as usize) < names.len() {
        return names.text(name);
    }
    ""
}
