//! What lies outside the index: files that are read, a sink that is written, a gate between sections.
#![tactic(auto)]

mod folder;
mod gates;
mod holding;
mod memory_files;
mod memory_sink;
mod reading;
mod steady;
mod writing;

pub use gates::{Gate, GatePoint, OpenGate};
pub use holding::HoldGate;
pub use memory_files::MemoryFiles;
pub use memory_sink::MemorySink;
pub use reading::{Files, ReadRefusal};
pub use steady::{SteadyFiles, SteadySink};
pub use writing::{Sink, SinkFailed, write_all};
