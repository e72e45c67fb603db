//! What holds along every legal history.

ghost use Rattle.cr_meaning.specs.Histories.{ChannelsAreLawful, ChannelsEvolve, HistoriesGoOn, NothingAfterTheEnd, OneEnding, SelectsTakeOne};
ghost use Rattle.cr_meaning.specs.Meetings.{EntriesMeet, PartnersAreMet};

use cr_items::{channel_law, received_law};

/// From a state that a legal history reaches to any later one, each channel becomes what operations on it make of it, and none
/// goes away.
pub fn channels_evolve()
    ensures { ChannelsEvolve }
{}

/// In each state that a legal history reaches, what was sent to a channel is what was received, then what stands in its list,
/// then what was withdrawn: so what was received is a front of what was sent.
pub fn channels_are_lawful()
    ensures { ChannelsAreLawful }
{
    channel_law();
    received_law();
}

/// A history that goes on is run from where its beginning led.
pub fn histories_go_on()
    ensures { HistoriesGoOn }
{}

/// Once main is done no entry is legal.
pub fn nothing_after_the_end()
    ensures { NothingAfterTheEnd }
{}

/// That main finished, that it raised, that the budget is spent, that no fiber can go on: at most one of these holds.
pub fn one_ending()
    ensures { OneEnding }
{}

/// Each reduction of a `select` takes the one clause that is chosen, which is ready, or its `else`, where none is.
pub fn selects_take_one()
    ensures { SelectsTakeOne }
{}

/// Each reduction that names a partner is a meeting with it: the partner waited, its operation is completed by the clause that is
/// named, and no other clause of its choice stands.
pub fn partners_are_met()
    ensures { PartnersAreMet }
{}

/// Each legal entry that names a partner ends in a meeting with it, by the clauses that the entry names.
pub fn entries_meet()
    ensures { EntriesMeet }
{}
