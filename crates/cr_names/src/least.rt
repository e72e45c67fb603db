//! The first offence: the least by the order of the text, and at one node by code.
ghost use Rattle.std.specs.Prelude.{◌≡◌, ◌<◌, ◌+◌, length, IfOk};
ghost use Rattle.std.specs.Ordering.{is_lt};
ghost use Rattle.cr_core.specs.Order.{stands_before, text_order};
ghost use Rattle.cr_names.specs.Cyclic.{IsParentage};
ghost use Rattle.cr_names.specs.Leading as leading;
ghost use Rattle.cr_names.specs.Offences.{IsFirst, IsFirstAt};
ghost use Rattle.cr_names.specs.Tables.{AreNames};

use crate::cycle::Parentage;
use crate::lookup::Lookup;
use crate::names::Names;
use crate::offence::{Offence, What};
use cr_base::{NoMemory, NodeId};
use cr_core::{CoreTree, Place, Row};
use std::alloc::Global;

/// The offence of a core tree before which none stands: by the order of the text, and at one node by code. None exactly where there
/// is no offence.
pub fn first_offence(alloc: Global, core: &CoreTree) -> Result<Option<Offence>, NoMemory>
    ensures { IfOk result (IsFirst core.now) }
{
    let names = Names::of(alloc, core)?;
    let lookup = Lookup {
        core,
        names: &names,
    };
    lookup.first_offence(alloc)
}

impl Lookup<'_> {
    /// The offence of the core tree before which none stands, where there is one.
    pub fn first_offence(&self, alloc: Global) -> Result<Option<Offence>, NoMemory>
        requires { AreNames self.now.core.now self.now.names.now }
        ensures { IfOk result (IsFirst self.now.core.now) }
    {
        let parentage = self.parentage(alloc)?;
        let rows = self.core.rows();
        let mut best = None;
        for number in 0..rows.len() {
            best = with_node(alloc, self, &parentage, best, NodeId(number as u32))?;
        }
        Ok(best)
    }
}

/// The least offence of the nodes up to this one, where this is the least of those before it.
fn with_node(
    alloc: Global,
    lookup: &Lookup,
    parentage: &Parentage,
    best: Option<Offence>,
    node: NodeId,
) -> Result<Option<Offence>, NoMemory>
    requires names { AreNames lookup.now.core.now lookup.now.names.now }
    requires parentage { IsParentage lookup.now.core.now parentage.now }
    requires there { node.0 < length lookup.now.core.now.rows }
    requires best { leading.IsLeastBelow lookup.now.core.now node.0 best }
    ensures { IfOk result (leading.IsLeastBelow lookup.now.core.now (node.0 + 1)) }
{
    match offence_at(alloc, lookup, parentage, node)? {
        None => Ok(best),
        Some(what) => Ok(Some(earlier(lookup.core, best, Offence { node, what }))),
    }
}

/// The offence of a node, the one of least code.
fn offence_at(
    alloc: Global,
    lookup: &Lookup,
    parentage: &Parentage,
    node: NodeId,
) -> Result<Option<What>, NoMemory>
    requires names { AreNames lookup.now.core.now lookup.now.names.now }
    requires parentage { IsParentage lookup.now.core.now parentage.now }
    requires there { node.0 < length lookup.now.core.now.rows }
    ensures { IfOk result (IsFirstAt lookup.now.core.now node.0) }
{
    if lookup.is_unknown_class(node) {
        return Ok(Some(What::UnknownClass));
    }
    if lookup.is_twice(alloc, node)? {
        return Ok(Some(What::Twice));
    }
    if lookup.is_cyclic_parent(alloc, parentage, node)? {
        return Ok(Some(What::CyclicParent));
    }
    if lookup.is_bad_arity(node) {
        return Ok(Some(What::BadArity));
    }
    Ok(None)
}

/// The one of two that stands first.
fn earlier(core: &CoreTree, best: Option<Offence>, next: Offence) -> Offence
    ensures { result ≡ leading.earlier core.now.rows best next }
{
    match best {
        None => next,
        Some(best) => {
            if stands_before(core.rows(), next.node, best.node) {
                next
            } else {
                best
            }
        }
    }
}

fn stands_before(rows: &[Row], one: NodeId, other: NodeId) -> bool
    ensures { result ≡ stands_before rows.now one other }
{
    let Some(first) = rows.get(one.0 as usize) else {
        return false;
    };
    let Some(second) = rows.get(other.0 as usize) else {
        return false;
    };
    is_before(first.place, one.0, second.place, other.0)
}

fn is_before(one: Place, number: u32, other: Place, next: u32) -> bool
    ensures { result ≡ is_lt (text_order one number other next) }
{
    if one.prelude != other.prelude {
        return one.prelude;
    }
    if one.at != other.at {
        return one.at < other.at;
    }
    number < next
}
