//! The first offence: the least by the order of the text, and at one node by code.
ghost use Rattle.std.specs.Prelude.{◌≡◌, ◌<◌, ◌+◌, length};
ghost use Rattle.std.specs.Ordering.{is_lt};
ghost use Rattle.cr_core.specs.Order.{stands_before, text_order};
ghost use Rattle.cr_shapes.specs.Leading as leading;
ghost use Rattle.cr_shapes.specs.Offences.{IsFirst};

use crate::offence::{Offence, What};
use crate::offences::{is_too_deep, is_yield_in_spawn, needs_type};
use cr_base::NodeId;
use cr_core::{CoreTree, Place, Row};

/// The offence of a core tree before which none stands: by the order of the text, and at one node by code. None exactly where there
/// is no offence. Takes no memory.
pub fn first_offence(core: &CoreTree) -> Option<Offence>
    ensures { IsFirst core.now result }
{
    let rows = core.rows();
    let mut best = None;
    for number in 0..rows.len() {
        best = with_node(core, best, NodeId(number as u32));
    }
    best
}

/// The least offence of the nodes up to this one, where this is the least of those before it.
fn with_node(core: &CoreTree, best: Option<Offence>, node: NodeId) -> Option<Offence>
    requires there { node.0 < length core.now.rows }
    requires best { leading.IsLeastBelow core.now node.0 best }
    ensures { leading.IsLeastBelow core.now (node.0 + 1) result }
{
    match offence_at(core, node) {
        None => best,
        Some(what) => Some(earlier(core.rows(), best, Offence { node, what })),
    }
}

/// The offence of a node, the one of least code.
fn offence_at(core: &CoreTree, node: NodeId) -> Option<What>
    requires { node.0 < length core.now.rows }
    ensures { leading.IsFirstAt core.now node.0 result }
{
    if needs_type(core, node) {
        return Some(What::NeedType);
    }
    if is_yield_in_spawn(core, node) {
        return Some(What::YieldInSpawn);
    }
    if is_too_deep(core, node) {
        return Some(What::TypeTooDeep);
    }
    None
}

/// The one of two that stands first.
fn earlier(rows: &[Row], best: Option<Offence>, next: Offence) -> Offence
    ensures { result ≡ leading.earlier rows.now best next }
{
    match best {
        None => next,
        Some(best) => {
            if stands_before(rows, next.node, best.node) {
                next
            } else {
                best
            }
        }
    }
}

fn stands_before(rows: &[Row], one: NodeId, other: NodeId) -> bool
    ensures { result ≡ stands_before rows.now one other }
{
    let Some(first) = rows.get(one.0 as usize) else {
        return false;
    };
    let Some(second) = rows.get(other.0 as usize) else {
        return false;
    };
    is_before(first.place, one.0, second.place, other.0)
}

fn is_before(one: Place, number: u32, other: Place, next: u32) -> bool
    ensures { result ≡ is_lt (text_order one number other next) }
{
    if one.prelude != other.prelude {
        return one.prelude;
    }
    if one.at != other.at {
        return one.at < other.at;
    }
    number < next
}
