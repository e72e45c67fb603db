ghost use Rattle.std.specs.Prelude.{◌≡◌, ◌≤◌};
ghost use Rattle.cr_schedule.specs.Entry.{HasLine};
ghost use Rattle.cr_schedule.specs.Slot.{entry_of, clause_of, partner_of, partner_clause_of};

use crate::entry::{Entry, LAST_FIBER};
use cr_base::FiberId;
use std::mem::size_of;

/// The count of a slot that keeps a `Wait`.
const WAIT: u32 = u32::MAX;

/// The count of a slot that keeps a `Resume`.
const RESUME: u32 = 0;

/// The clause where there is none.
const NO_CLAUSE: u32 = u32::MAX;

/// The partner's clause where there is no partner.
const NO_PARTNER: u32 = u32::MAX - 1;

/// An entry as it is kept.
#[derive(Clone, Copy, Debug)]
pub(crate) struct Slot {
    pub(crate) fiber: u16,
    pub(crate) partner: u16,
    pub(crate) count: u32,
    pub(crate) clause: u32,
    pub(crate) partner_clause: u32,
}

const _: () = prove!(size_of::<Slot>() <= 16);

/// The slot that keeps an entry.
pub(crate) fn slot_of(entry: Entry) -> Slot
    requires { HasLine entry }
    ensures { entry_of result ≡ entry }
{
    match entry {
        Entry::Steps {
            fiber,
            count,
            clause,
            partner,
            partner_clause,
        } => Slot {
            fiber: fiber.0 as u16,
            partner: partner.map_or(0, |partner| partner.0 as u16),
            count,
            clause: clause.unwrap_or(NO_CLAUSE),
            partner_clause: match partner {
                None => NO_PARTNER,
                Some(_) => partner_clause.unwrap_or(NO_CLAUSE),
            },
        },
        Entry::Wait(fiber) => mark(fiber, WAIT),
        Entry::Resume(fiber) => mark(fiber, RESUME),
    }
}

fn mark(fiber: FiberId, count: u32) -> Slot
    requires { fiber.0 ≤ LAST_FIBER }
    ensures { result ≡ record {
      fiber = fiber.0;
      partner = 0;
      count = count;
      clause = NO_CLAUSE;
      partner_clause = NO_PARTNER;
    } }
{
    Slot {
        fiber: fiber.0 as u16,
        partner: 0,
        count,
        clause: NO_CLAUSE,
        partner_clause: NO_PARTNER,
    }
}

/// The entry that a slot keeps.
pub(crate) fn entry_of(slot: Slot) -> Entry
    ensures { result ≡ entry_of slot }
{
    let fiber = FiberId(u32::from(slot.fiber));
    match slot.count {
        WAIT => Entry::Wait(fiber),
        RESUME => Entry::Resume(fiber),
        count => Entry::Steps {
            fiber,
            count,
            clause: clause_of(slot.clause),
            partner: partner_of(slot),
            partner_clause: partner_clause_of(slot),
        },
    }
}

fn clause_of(clause: u32) -> Option<u32>
    ensures { result ≡ clause_of clause }
{
    if clause == NO_CLAUSE {
        None
    } else {
        Some(clause)
    }
}

fn partner_of(slot: Slot) -> Option<FiberId>
    ensures { result ≡ partner_of slot }
{
    if slot.partner_clause == NO_PARTNER {
        None
    } else {
        Some(FiberId(u32::from(slot.partner)))
    }
}

fn partner_clause_of(slot: Slot) -> Option<u32>
    ensures { result ≡ partner_clause_of slot }
{
    if slot.partner_clause == NO_PARTNER {
        None
    } else {
        clause_of(slot.partner_clause)
    }
}
