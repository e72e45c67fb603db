// What holds of every channel, whatever is done to it.
ghost use Rattle.std.specs.Prelude.{◌≡◌, ◌↔◌, ◌<◌, ℕ, List, [], ◌++◌, length, IsTrue, true, false};
ghost use Rattle.cr_base.specs.declared.ids.FiberId.{FiberId};
ghost use Rattle.cr_value.specs.declared.value.Value.{Value};
ghost use Rattle.cr_value.specs.declared.value.Fate.TheVariants.{Passed, Waits, Withdrawn};
ghost use Rattle.cr_items.specs.Channel.{Channel, Operation, new_channel, run, after, after_append, after_take, after_meeting, after_close, passed, unsettled, has_number, fate_of, IsFront, IsNumberedFrom, IsLawful};

/// The law of a channel: what was sent is what was received, then what stands in the list, then what was withdrawn.
/// So each value that was sent is received at most once, and in order.
pub fn channel_law()
    ensures joined { (capacity : ℕ) (operations : List Operation) →
        let channel = run (new_channel capacity) operations in
        channel.sent ≡ channel.received ++ channel.items ++ channel.withdrawn }
    ensures lawful { (capacity : ℕ) (operations : List Operation) →
        IsLawful (run (new_channel capacity) operations) }
    ensures kept { (channel : Channel) (operations : List Operation) →
        IsLawful channel → IsLawful (run channel operations) }
{}

/// What was received is the beginning of what was sent, and what was received never changes afterwards. After a close
/// nothing is received but the items that were settled at the close.
pub fn received_law()
    ensures front { (capacity : ℕ) (operations : List Operation) →
        let channel = run (new_channel capacity) operations in IsFront channel.received channel.sent }
    ensures in_order { (capacity : ℕ) (operations : List Operation) →
        IsNumberedFrom 0 (run (new_channel capacity) operations).received }
    ensures stays { (channel : Channel) (operations : List Operation) →
        IsFront channel.received (run channel operations).received }
    ensures after_a_close { (channel : Channel) (operations : List Operation) →
        IsFront (run (after_close channel) operations).received (passed channel) }
{}

/// A meeting, which is made where the list is empty, is an append and then a take.
pub fn meeting_law()
    ensures { (channel : Channel) (from : FiberId) (value : Value) →
        channel.items ≡ [] →
        after_meeting channel from value ≡ after_take (after_append channel from value) }
{}

/// A second close changes nothing, whatever was done since the first.
pub fn close_law()
    ensures { (channel : Channel) → IsLawful channel → channel.closed ≡ true → after_close channel ≡ channel }
{}

/// Of an item that was sent, one of three things holds: it has passed, it waits, or it was withdrawn.
pub fn fate_law()
    ensures passed { (channel : Channel) (number : ℕ) → IsLawful channel → number < length channel.sent →
        (fate_of channel number ≡ Passed) ↔ IsTrue (has_number (passed channel) number) }
    ensures waits { (channel : Channel) (number : ℕ) → IsLawful channel → number < length channel.sent →
        (fate_of channel number ≡ Waits) ↔ IsTrue (has_number (unsettled channel) number) }
    ensures withdrawn { (channel : Channel) (number : ℕ) → IsLawful channel → number < length channel.sent →
        (fate_of channel number ≡ Withdrawn) ↔ IsTrue (has_number channel.withdrawn number) }
{}
