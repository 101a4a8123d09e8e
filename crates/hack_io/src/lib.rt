//! Where bytes come from and where they go: sources and sinks, each with a count of its faults.
#![tactic(auto)]

mod memory_sink;
mod memory_source;
mod no_memory;
mod numbers;
mod sink;
mod source;
mod std_sink;
mod std_source;

pub use memory_sink::MemorySink;
pub use memory_source::MemorySource;
pub use no_memory::NoMemory;
pub use sink::{Sink, WriteFault};
pub use source::{ReadFault, Source};
pub use std_sink::StdSink;
pub use std_source::StdSource;
