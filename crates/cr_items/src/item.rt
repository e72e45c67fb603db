use cr_base::FiberId;
use cr_value::Value;

/// A value that was sent to a channel.
#[derive(Debug, Drop)]
pub struct Item {
    /// How many items were sent to the channel before it.
    pub number: u64,
    /// The fiber that sent it.
    pub from: FiberId,
    /// What was sent.
    pub value: Value,
}
