//! A channel as one list of numbered items: what a send, a receive and a close do, and what became of each item.
#![tactic(auto)]

mod item;
mod items;
mod laws;
#[cfg(test)]
mod tests;

pub use item::Item;
pub use items::Items;
pub use laws::{channel_law, close_law, fate_law, meeting_law, received_law};
