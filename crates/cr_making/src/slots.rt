//! The locals of a scope.

ghost use Rattle.std.specs.Prelude.{◌≡◌, ◌++◌, ◌∷◌, [], length, OnOk};
ghost use Rattle.cr_making.specs.Slots.{slot_of};

use cr_base::{NameId, NoMemory};
use std::alloc::Global;
use std::collections::HashMap;
use std::marker::Model;

/// The locals of a scope so far, seen as the list of their names. The last place of each name is found at once.
#[derive(Drop)]
pub struct Slots {
    names: Vec<Option<NameId>>,
    places: HashMap<u32, u32>,
}

impl Model for Slots {
    ghost use Rattle.std.specs.Prelude.{List, Option, ℕ, ◌≡◌, nat_eq};
    ghost use Rattle.std.specs.HashMap.{get};
    ghost use Rattle.cr_base.specs.declared.ids.NameId.{NameId};
    ghost use Rattle.cr_making.specs.Slots.{slot_of};

    ghost Value = { List (Option NameId) };

    ghost view = { λ s. s.names.items };

    ghost invariant = { λ s. (q : ℕ) → get nat_eq s.places q ≡ slot_of 0 (record { 0 = q }) s.names.items };
}

impl Slots {
    /// No locals, and no memory taken.
    pub fn new(alloc: Global) -> Slots
        ensures { result ≡ [] }
    {
        Slots {
            names: Vec::new(alloc),
            places: HashMap::new(alloc),
        }
    }

    pub fn len(&self) -> usize
        ensures { result ≡ length self.now }
    {
        self.names.len()
    }

    /// The last slot that bears the name.
    pub fn find(&self, name: NameId) -> Option<u32>
        ensures { result ≡ slot_of 0 name self.now }
    {
        self.places.get(&name.0).copied()
    }

    /// One more local.
    pub fn push(&mut self, name: Option<NameId>) -> Result<(), NoMemory>
        ensures { OnOk result (self.new ≡ self.old ++ name ∷ []) }
    {
        let place = self.names.len();
        if place > u32::MAX as usize {
            return Err(NoMemory);
        }
        self.names.push(name)?;
        if let Some(name) = name {
            match self.places.insert(name.0, place as u32) {
                Ok(_) => {}
                Err(_) => {
                    let _ = self.names.pop();
                    return Err(NoMemory);
                }
            }
        }
        Ok(())
    }

    /// The names of the locals, in order.
    pub fn as_slice(&self) -> &[Option<NameId>]
        ensures { result.now ≡ self.now }
    {
        self.names.as_slice()
    }
}
