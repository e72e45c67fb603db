//! The outside: where a program's text comes from and where its output goes, with a meaning that proofs can speak of.
#![tactic(auto)]

mod gate;
mod memory_sink;
mod memory_source;
mod sink;
mod source;
mod std_sink;
mod std_source;
mod sure_sink;
mod sure_source;
mod whole;

pub use gate::{Gate, OpenGate};
pub use memory_sink::MemorySink;
pub use memory_source::MemorySource;
pub use sink::{Sink, put_all};
pub use source::{Failed, Source};
pub use std_sink::StdSink;
pub use std_source::StdSource;
pub use sure_sink::SureSink;
pub use sure_source::SureSource;
pub use whole::{ReadAll, read_all};

#[cfg(test)]
mod tests;
