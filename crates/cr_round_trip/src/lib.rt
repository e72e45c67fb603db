//! The round trip: what is laid out is read as the same program.
#![tactic(auto)]

mod laws;

pub use laws::{format_is_still, layout_has_tokens, places_leave_no_trace, round_trip};
