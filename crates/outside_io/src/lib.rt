//! What lies outside the program: files that are read and sinks that are written, by what they hold and how often
//! they failed. Beside the traits stand files and a sink in memory, and the two calls that the program makes:
//! `read_whole` and `write_all`.
#![tactic(auto)]

mod files;
mod gate;
mod mem_files;
mod mem_sink;
mod sink;
mod whole;

pub use files::{Failed, Files};
pub use gate::{Gate, OpenGate};
pub use mem_files::MemFiles;
pub use mem_sink::MemSink;
pub use sink::{Sink, write_all};
pub use whole::{ReadFault, read_whole};

#[cfg(test)]
mod tests;
