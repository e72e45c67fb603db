//! Decisions about a node, each exact for the lines of its code.
ghost use Rattle.std.specs.Prelude.{◌≡◌, ◌<◌, ◌↔◌, length, IfOk, IsTrue};
ghost use Rattle.cr_names.specs.declared.offence.What.TheVariants as what;
ghost use Rattle.cr_names.specs.Cyclic.{IsParentage};
ghost use Rattle.cr_names.specs.Offences.{IsOffence};
ghost use Rattle.cr_names.specs.Tables.{AreNames};

use crate::cycle::Parentage;
use crate::lookup::Lookup;
use crate::{cycle, deciding, twice};
use cr_base::{NoMemory, NodeId};
use std::alloc::Global;

impl Lookup<'_> {
    /// Whether a node names a class, module or type parameter where none of this name serves.
    pub fn is_unknown_class(&self, node: NodeId) -> bool
        requires names { AreNames self.now.core.now self.now.names.now }
        requires there { node.0 < length self.now.core.now.rows }
        ensures { IsTrue result ↔ IsOffence self.now.core.now node.0 what.UnknownClass }
    {
        deciding::is_unknown(self, node.0 as usize, self.core.row(node))
    }

    /// Whether a node defines a thing twice.
    pub fn is_twice(&self, alloc: Global, node: NodeId) -> Result<bool, NoMemory>
        requires names { AreNames self.now.core.now self.now.names.now }
        requires there { node.0 < length self.now.core.now.rows }
        ensures { IfOk result (λ yes. IsTrue yes ↔ IsOffence self.now.core.now node.0 what.Twice) }
    {
        twice::is_twice(alloc, self, node.0 as usize, self.core.row(node))
    }

    /// Whether a node is a type with another number of arguments than its class has parameters.
    pub fn is_bad_arity(&self, node: NodeId) -> bool
        requires names { AreNames self.now.core.now self.now.names.now }
        requires there { node.0 < length self.now.core.now.rows }
        ensures { IsTrue result ↔ IsOffence self.now.core.now node.0 what.BadArity }
    {
        deciding::is_bad_arity(self, node.0 as usize, self.core.row(node))
    }

    /// Whether a node is the first declaration of a class or module that stands above itself.
    pub fn is_cyclic_parent(
        &self,
        alloc: Global,
        parentage: &Parentage,
        node: NodeId,
    ) -> Result<bool, NoMemory>
        requires names { AreNames self.now.core.now self.now.names.now }
        requires parentage { IsParentage self.now.core.now parentage.now }
        requires there { node.0 < length self.now.core.now.rows }
        ensures { IfOk result (λ yes. IsTrue yes ↔ IsOffence self.now.core.now node.0 what.CyclicParent) }
    {
        cycle::is_cyclic(alloc, self, parentage, node.0 as usize, self.core.row(node))
    }
}
