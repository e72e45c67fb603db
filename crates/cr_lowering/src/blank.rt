//! Scopes that have their locals alone, of which no row has told anything yet.
ghost use Rattle.std.specs.Prelude.{◌≡◌, map, IfOk};
ghost use Rattle.cr_lowering.specs.Blank as spec;

use cr_base::{NameId, NoMemory, NodeId};
use cr_core::{Listed, Scope, ScopeKind, Slot};
use cr_making::Slots;
use std::alloc::Global;

fn free_slots(alloc: Global, names: &[Option<NameId>]) -> Result<Vec<Slot>, NoMemory>
    ensures { IfOk result (λ slots. slots.items ≡ map spec.free_slot names.now) }
{
    Ok(
        names
            .iter()
            .map(|name| Slot {
                name: *name,
                captured: false,
            })
            .collect(alloc)?,
    )
}

fn blank(alloc: Global, names: &Slots) -> Result<Scope, NoMemory>
    ensures { IfOk result (λ scope. scope ≡ spec.blank names.now) }
{
    Ok(Scope {
        kind: ScopeKind::Main,
        home: None,
        site: NodeId(0),
        body: NodeId(0),
        parameters: 0,
        slots: Listed::of(free_slots(alloc, names.as_slice())?),
    })
}

pub fn blank_scopes(alloc: Global, scopes: &[Slots]) -> Result<Vec<Scope>, NoMemory>
    ensures { IfOk result (λ made. made.items ≡ map spec.blank scopes.now) }
{
    let mut made = Vec::new(alloc);
    for names in scopes {
        made.push(blank(alloc, names)?)?;
    }
    Ok(made)
}
