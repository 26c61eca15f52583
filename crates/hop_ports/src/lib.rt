//! The outside as traits: a folder of named files, a sink of bytes and a gate that threads pass;
//! with folders in memory and on disk, a sink in memory and standard output.
#![tactic(auto)]

pub mod clean;
mod count;
pub mod disk;
mod files;
pub mod folder;
pub mod gate;
pub mod memory;
pub mod sink;
pub mod sinks;

pub use clean::CleanFolder;
pub use disk::DiskFolder;
pub use folder::{Folder, GetFault, PutFault};
pub use gate::{Gate, OpenGate, Point};
pub use memory::MemFolder;
pub use sink::{SayFault, Sink};
pub use sinks::{MemSink, StdSink};
