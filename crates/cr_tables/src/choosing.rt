//! The choice of a method.
ghost use Rattle.std.specs.Prelude.{◌≡◌, ◌∷◌, ◌++◌, ◌+◌, [], ◌<◌, nat_lt, true, option_map};
ghost use Rattle.std.specs.List.{list_all};
ghost use Rattle.cr_lookup.specs.Choice.{IsChoice};
ghost use Rattle.cr_names.specs.Names.{class_count};
ghost use Rattle.cr_tables.specs.Choosing as spec;
ghost use Rattle.cr_tables.specs.Numbers.{is_number};
ghost use Rattle.cr_tables.specs.Methods.{all_methods, is_it, is_initialize_name, name_with, initialize, top_level};
ghost use Rattle.cr_tables.specs.World.{world_of, target, further};

use crate::def::Def;
use crate::onwards::Onwards;
use crate::tables::Tables;
use cr_base::{ClassId, MethodId, NameId};
use cr_lookup::{Place, Sought, choose, first_place_with, places_behind, places_of_call};

impl Tables {
    /// The method that a call finds: of a receiver of this class, by name, classes of the arguments, and whether a block is given.
    /// `top` says that the call names no receiver, so that it goes on to the methods of the top level. None exactly where
    /// nothing matches. It is the pointwise least match of the first place that has one; for what is no class of the program
    /// nothing matches. Takes no memory.
    pub fn choose(
        &self,
        class: ClassId,
        name: NameId,
        args: &[ClassId],
        block: bool,
        top: bool,
    ) -> Option<MethodId>
        ensures chosen { result ≡ spec.chosen self.now class name args.now block top }
        ensures least { list_all (is_number self.now) (class ∷ args.now) ≡ true →
            IsChoice (class_count self.now + 1) (all_methods self.now) (spec.places_of_call self.now class name top) (spec.sought class name block) args.now result }
        ensures world { option_map target result ≡ (world_of self.now).choose class name args.now block top }
    {
        let sought = Sought {
            receiver: class,
            name,
            block,
        };
        if !self.are_numbers(class, args) {
            return None;
        }
        let places = self.places_of_call(class, name, top);
        self.first_chosen(sought, args, places)
    }

    /// The method that a `super` finds in this method, for a receiver of this class and arguments of these. None exactly where
    /// nothing further on matches. Takes no memory.
    pub fn choose_super(
        &self,
        class: ClassId,
        running: MethodId,
        args: &[ClassId],
    ) -> Option<MethodId>
        ensures { result ≡ spec.method_in (spec.chosen_super self.now class running args.now) }
    {
        match self.onwards_of_super(class, running, args) {
            Onwards::To(method) => Some(method),
            Onwards::Nowhere => None,
            Onwards::NoneMatches => None,
        }
    }

    /// Where a `super` goes in this method, for a receiver of this class and arguments of these. Takes no memory.
    pub fn onwards_of_super(&self, class: ClassId, running: MethodId, args: &[ClassId]) -> Onwards
        ensures chosen { result ≡ spec.chosen_super self.now class running args.now }
        ensures world { further result ≡ (world_of self.now).choose_super class running args.now }
    {
        match self.def_at(running) {
            None => Onwards::Nowhere,
            Some(def) => {
                let places = self.places_of_super(class, def);
                self.onwards(class, def.name, args, places)
            }
        }
    }

    /// The `initialize` that the making of an object of this class runs, for arguments of these classes. Takes no memory.
    pub fn onwards_of_new(&self, class: ClassId, args: &[ClassId]) -> Onwards
        ensures chosen { result ≡ spec.chosen_initialize self.now class args.now }
        ensures world { further result ≡ (world_of self.now).choose_initialize class args.now }
    {
        match self.initializer {
            None => Onwards::Nowhere,
            Some(name) => {
                let own = self.own_places(class);
                let places = first_place_with(self.methods.as_slice(), own, name);
                self.onwards(class, name, args, places)
            }
        }
    }

    /// Where a name leads that is looked for at these places.
    fn onwards(&self, class: ClassId, name: NameId, args: &[ClassId], places: &[Place]) -> Onwards
        ensures { result ≡ spec.onwards self.now class name args.now places.now }
    {
        let sought = Sought {
            receiver: class,
            name,
            block: false,
        };
        match self.chosen_at(sought, args, places) {
            Some(method) => Onwards::To(method),
            None => self.unmatched(name, places),
        }
    }

    /// Where a name leads of which nothing at these places matches.
    fn unmatched(&self, name: NameId, places: &[Place]) -> Onwards
        ensures { result ≡ spec.unmatched self.now name places.now }
    {
        if first_place_with(self.methods.as_slice(), places, name).is_empty() {
            Onwards::Nowhere
        } else {
            Onwards::NoneMatches
        }
    }

    /// The choice at these places.
    fn chosen_at(&self, sought: Sought, args: &[ClassId], places: &[Place]) -> Option<MethodId>
        ensures { result ≡ spec.chosen_at self.now sought args.now places.now }
    {
        if !self.are_numbers(sought.receiver, args) {
            return None;
        }
        self.first_chosen(sought, args, places)
    }

    /// The choice of the first of these places that has a match.
    fn first_chosen(&self, sought: Sought, args: &[ClassId], places: &[Place]) -> Option<MethodId>
        requires { list_all (is_number self.now) (sought.receiver ∷ args.now) ≡ true }
        ensures chosen { result ≡ spec.first_chosen (spec.compared self.now) (all_methods self.now) sought args.now places.now }
        ensures least { IsChoice (class_count self.now + 1) (all_methods self.now) places.now sought args.now result }
    {
        choose(
            self.class_count() + 1,
            self.methods.as_slice(),
            places,
            sought,
            args,
        )
    }

    /// Whether these are classes or modules of the program.
    fn are_numbers(&self, class: ClassId, args: &[ClassId]) -> bool
        ensures { result ≡ list_all (is_number self.now) (class ∷ args.now) }
    {
        let count = self.class_count();
        class.0 < count && are_below(args, count)
    }

    /// The places that a call looks at.
    fn places_of_call(&self, class: ClassId, name: NameId, top: bool) -> &[Place]
        requires { class.0 < class_count self.now }
        ensures { result.now ≡ spec.places_of_call self.now class name top }
    {
        let places = places_of_call(self.places(class), top, class.0 == 0);
        self.unless_initialize(name, places)
    }

    /// The places that a `super` looks at in this method.
    fn places_of_super(&self, class: ClassId, def: Def) -> &[Place]
        ensures { result.now ≡ spec.places_of_super self.now class def }
    {
        let places = places_behind(self.own_places(class), def.place);
        self.unless_initialize(def.name, places)
    }

    /// These places, or for an `initialize` the first of them that has one.
    fn unless_initialize<'a>(&self, name: NameId, places: &'a [Place]) -> &'a [Place]
        ensures { result.now ≡ spec.unless_initialize self.now name places.now }
    {
        if self.is_initialize_name(name) {
            return first_place_with(self.methods.as_slice(), places, name);
        }
        places
    }

    /// The places of a class or module, and that of the top level last.
    fn places(&self, class: ClassId) -> &[Place]
        requires { class.0 < class_count self.now }
        ensures { result.now ≡ spec.own_places self.now class ++ top_level self.now ∷ [] }
    {
        self.places[class.0 as usize].as_slice()
    }

    /// The places of a class or module. None of a number that is no class's or module's.
    fn own_places(&self, class: ClassId) -> &[Place]
        ensures { result.now ≡ spec.own_places self.now class }
    {
        if class.0 < self.class_count() {
            return places_of_call(self.places(class), false, false);
        }
        &[]
    }

    pub(crate) fn is_initialize_name(&self, name: NameId) -> bool
        ensures { result ≡ is_initialize_name self.now name }
    {
        is_it(name, self.initializer)
    }
}

fn is_it(name: NameId, other: Option<NameId>) -> bool
    ensures { result ≡ is_it name other }
{
    match other {
        Some(other) => other == name,
        None => false,
    }
}

fn are_below(classes: &[ClassId], count: u32) -> bool
    ensures { result ≡ list_all (λ class. nat_lt class.0 count) classes.now }
{
    classes.iter().all(|class| class.0 < count)
}
