//! What is known of a method by its number, and of an atom by its row.
ghost use Rattle.std.specs.Prelude.{◌≡◌, All, Some, option_map, slice_get};
ghost use Rattle.cr_ancestors.specs.Line.{has};
ghost use Rattle.cr_core.specs.Tree.{HasName, names_of};
ghost use Rattle.cr_tables.specs.Choosing.{def_at};
ghost use Rattle.cr_tables.specs.Numbers.{is_class};
ghost use Rattle.cr_tables.specs.Types.{class_of_atom, is_at_or_below, named_class};
ghost use Rattle.cr_tables.specs.World.{world_of, node_of, target, target_by, meant, made_of, object_of};

use crate::def::Def;
use crate::made::Made;
use crate::tables::Tables;
use cr_base::{ClassId, MethodId, NodeId};
use cr_builtins::{OPERATIONS, Operation};
use cr_core::Form;
use cr_names::BUILT_IN;

impl Tables {
    /// The row of a method's `def`: None exactly for a built-in one. Takes no memory.
    pub fn method(&self, at: MethodId) -> Option<NodeId>
        ensures { result ≡ node_of (def_at self.now at) }
    {
        match self.def_at(at) {
            Some(def) => Some(def.node),
            None => None,
        }
    }

    /// Whether a method is one of the top level. Takes no memory.
    #[tactic(auto, unfolding(crate::specs::World::world_of))]
    pub fn is_top(&self, at: MethodId) -> bool
        ensures { result ≡ (world_of self.now).is_top at }
    {
        match self.def_at(at) {
            Some(def) => def.place.0 == self.class_count(),
            None => false,
        }
    }

    /// Whether a method is an `initialize`. Takes no memory.
    #[tactic(auto, unfolding(crate::specs::World::world_of))]
    pub fn is_initialize(&self, at: MethodId) -> bool
        ensures { result ≡ (world_of self.now).is_initialize at }
    {
        match self.def_at(at) {
            Some(def) => self.is_initialize_name(def.name),
            None => false,
        }
    }

    /// What a `new` on the class of an atom makes, by the atom's row: None where there is no such class. Takes no memory.
    #[tactic(auto, unfolding(crate::specs::World::world_of))]
    pub fn makes(&self, atom: NodeId) -> Option<Made>
        ensures { option_map meant result ≡ (world_of self.now).makes atom }
    {
        match self.class_of_atom(atom) {
            Some(class) => self.made_of(class),
            None => None,
        }
    }

    /// Whether a class is at or below one of those that these atoms name, by their rows. Takes no memory.
    #[tactic(auto, unfolding(crate::specs::World::world_of))]
    pub fn covers(&self, atoms: &[NodeId], class: ClassId) -> bool
        ensures { result ≡ (world_of self.now).covers atoms.now class }
    {
        atoms.iter().any(|atom| self.covers_by(*atom, class))
    }

    /// Whether a class is at or below the one that this atom names.
    fn covers_by(&self, atom: NodeId, class: ClassId) -> bool
        ensures { result ≡ is_at_or_below self.now class (class_of_atom self.now atom) }
    {
        self.is_at_or_below(class, self.class_of_atom(atom))
    }

    /// Whether a class is another one, or below it.
    fn is_at_or_below(&self, class: ClassId, above: Option<ClassId>) -> bool
        ensures { result ≡ is_at_or_below self.now class above }
    {
        match above {
            Some(above) => has(self.ancestors(class), above),
            None => false,
        }
    }

    /// What is made of a class.
    fn made_of(&self, class: ClassId) -> Option<Made>
        ensures { result ≡ made_of self.now class }
    {
        if class.0 == 8 {
            return Some(Made::Channel);
        }
        if class.0 == 9 {
            return Some(Made::Concurrent);
        }
        if class.0 == 10 {
            return Some(Made::Parallel);
        }
        if class.0 == 11 {
            return Some(Made::Isolated);
        }
        self.object_of(class)
    }

    #[tactic(auto, unfolding(cr_names::specs::Names::built_in_count, cr_names::specs::Names::lines))]
    fn object_of(&self, class: ClassId) -> Option<Made>
        ensures { result ≡ object_of self.now class }
    {
        if (class.0 as usize) < BUILT_IN.len() || !self.is_class(class) {
            return None;
        }
        Some(Made::Object(class))
    }

    /// Whether a number is that of a class, and of no module.
    fn is_class(&self, class: ClassId) -> bool
        ensures { result ≡ is_class self.now class }
    {
        match self.kinds.get(class.0 as usize) {
            Some(kind) => *kind,
            None => false,
        }
    }

    /// The class or module that an atom names, by its row.
    fn class_of_atom(&self, atom: NodeId) -> Option<ClassId>
        ensures { result ≡ class_of_atom self.now atom }
    {
        let rows = self.core.rows();
        match rows.get(atom.0 as usize) {
            Some(row) => self.class_of_form(row.form),
            None => None,
        }
    }

    fn class_of_form(&self, form: Form) -> Option<ClassId>
        requires { All (HasName self.now) (names_of form) }
        ensures { result ≡ named_class self.now (Some form) }
    {
        match form {
            Form::Atom(name) => self.named[name.0 as usize],
            _ => None,
        }
    }

    /// The declared method with this number.
    #[tactic(auto, unfolding(crate::specs::Methods::built_in_methods))]
    pub(crate) fn def_at(&self, at: MethodId) -> Option<Def>
        ensures { result ≡ def_at self.now at }
    {
        let number = at.0 as usize;
        if number < OPERATIONS.len() {
            return None;
        }
        def_in(self.declared.as_slice(), number - OPERATIONS.len())
    }
}

fn def_in(defs: &[Def], at: usize) -> Option<Def>
    ensures { result ≡ slice_get defs.now at }
{
    match defs.get(at) {
        Some(def) => Some(*def),
        None => None,
    }
}

fn has(classes: &[ClassId], class: ClassId) -> bool
    ensures { result ≡ has classes.now class }
{
    classes.contains(&class)
}

/// The built-in method with this number: None where it is a declared one. Takes no memory.
#[tactic(auto, unfolding(crate::specs::World::target))]
pub fn operation(at: MethodId) -> Option<Operation>
    ensures { target at ≡ target_by at result }
{
    operation_in(&OPERATIONS, at.0 as usize)
}

fn operation_in(table: &[Operation], at: usize) -> Option<Operation>
    ensures { result ≡ slice_get table.now at }
{
    match table.get(at) {
        Some(operation) => Some(*operation),
        None => None,
    }
}
