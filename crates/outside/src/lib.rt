//! What the program meets outside: sources of texts, a sink of bytes, and a gate round each slice.
#![tactic(auto)]

mod files;
mod gate;
mod listed;
mod memory_sink;
mod memory_sources;
mod sink;
mod sources;
mod stdout;
#[cfg(test)]
mod tests;

pub use files::FileSources;
pub use gate::{Gate, OpenGate};
pub use memory_sink::MemorySink;
pub use memory_sources::MemorySources;
pub use sink::{Failed, Sink};
pub use sources::{SourceFault, Sources};
pub use stdout::StdoutSink;
