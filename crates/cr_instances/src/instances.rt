// The instances are their keys, no two of which are equal, in the order in which they were added. There are at most
// `INSTANCE_LIMIT` of them.
ghost use Rattle.std.specs.Prelude.{◌≡◌, ◌≢◌, ◌≤◌, ◌<◌, ◌↔◌, ◌++◌, ◌∷◌, [], length, slice_get, Contains, AllPairs, Some, IsNone, IfSome, IfOk, OnOk, OnErr, IsErrOf};
ghost use Rattle.cr_instances.specs.Keys.{IsFront};

use crate::key::Key;
use cr_base::{InstanceId, NoMemory};
use indexmap::IndexSet;
use std::alloc::{AllocFailed, Global};
use std::marker::Model;

/// The most instances that a program has.
pub const INSTANCE_LIMIT: u32 = 20_000;

/// Why a key was not added.
#[derive(Clone, Copy, Debug, PartialEq, Eq)]
pub enum AddFault {
    /// The key is new, and there are `INSTANCE_LIMIT` instances.
    Full,
    /// Memory ran out.
    NoMemory,
}

impl<T: Drop> From<AllocFailed<T>> for AddFault {
    ghost use Rattle.std.specs.Prelude.{◌≡◌};
    ghost use Rattle.cr_instances.specs.declared.instances.AddFault.TheVariants.{NoMemory};

    ghost from_gives = { λ _ fault. fault ≡ NoMemory };

    fn from(_: AllocFailed<T>) -> AddFault {
        AddFault::NoMemory
    }
}

/// The instances of a program. Contracts see the list of their keys.
#[derive(Drop)]
pub struct Instances {
    keys: IndexSet<Key>,
}

impl Model for Instances {
    ghost use Rattle.std.specs.Prelude.{List, ◌≤◌, length};
    ghost use Rattle.cr_instances.specs.declared.key.Key.{Key};
    ghost use Rattle.cr_instances.specs.declared.instances.TheConstants.{INSTANCE_LIMIT};

    ghost Value = { List Key };

    ghost view = { λ i. i.keys.keys };

    ghost invariant = { λ i. length i.keys.keys ≤ INSTANCE_LIMIT };
}

impl Instances {
    /// No instances. It takes no memory.
    pub fn new(alloc: Global) -> Instances
        ensures { result ≡ [] }
    {
        Instances {
            keys: IndexSet::new(alloc),
        }
    }

    /// The instance of this key: `None` exactly where the key is not there.
    pub fn find(&self, key: &Key) -> Option<InstanceId>
        ensures place { IfSome result (λ id. slice_get self.now id.0 ≡ Some key.now) }
        ensures none { IsNone result ↔ ¬ Contains self.now key.now }
    {
        let place = self.keys.get_index_of(key)?;
        Some(InstanceId(place as u32))
    }

    /// The instance of this key, which is added last where it is not there: `Full` exactly where it is not there and
    /// there are `INSTANCE_LIMIT` instances.
    pub fn add(&mut self, key: Key) -> Result<InstanceId, AddFault>
        ensures place { IfOk result (λ id. slice_get self.new id.0 ≡ Some key) }
        ensures known { OnOk result (Contains self.old key → self.new ≡ self.old) }
        ensures fresh { OnOk result (¬ Contains self.old key → self.new ≡ self.old ++ key ∷ []) }
        ensures front { OnOk result (IsFront self.old self.new) }
        ensures full { IsErrOf result AddFault.Full ↔ ((INSTANCE_LIMIT ≤ length self.old) × ¬ Contains self.old key) }
        ensures err { OnErr result (self.new ≡ self.old) }
    {
        if let Some(id) = self.find(&key) {
            return Ok(id);
        }
        if self.count() >= INSTANCE_LIMIT {
            return Err(AddFault::Full);
        }
        let (place, _) = self.keys.insert_full(key)?;
        Ok(InstanceId(place as u32))
    }

    /// The key of an instance.
    pub fn key(&self, at: InstanceId) -> &Key
        requires { at.0 < length self.now }
        ensures { slice_get self.now at.0 ≡ Some result.now }
    {
        &self.keys[at.0 as usize]
    }

    /// How many instances there are.
    pub fn count(&self) -> u32
        ensures length { result ≡ length self.now }
        ensures within { length self.now ≤ INSTANCE_LIMIT }
        ensures distinct { AllPairs (λ a b. a ≢ b) self.now }
    {
        self.keys.len() as u32
    }
}
