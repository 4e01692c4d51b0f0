//! Bytes in and bytes out: sources and sinks that may fail, and the two loops over them.
#![tactic(auto)]

mod memory;
mod reading;
mod standard;
mod streams;
#[cfg(test)]
mod tests;
mod writing;

pub use memory::{MemorySink, MemorySource};
pub use reading::{ReadEnd, read_all};
pub use standard::{StdSink, StdSource};
pub use streams::{Failed, Sink, Source};
pub use writing::{SinkFault, write_all};
