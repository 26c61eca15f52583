//! Writers: what takes the cuts of the reducers, and puts their snapshots.
#![tactic(auto)]

mod acting;
pub mod chain_name;
pub mod files;
mod kept;
mod later;
pub mod no_snapshots;
pub mod no_writer;
mod notes;
mod putting;
mod turning;
pub mod writer;

pub use chain_name::ChainName;
pub use files::{NamedFile, put_files};
pub use no_snapshots::NoSnapshots;
pub use no_writer::NoWriter;
pub use writer::Writer;
