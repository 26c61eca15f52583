//! The vault of a map worker: it keeps each spill of its attempts for the whole job in a folder of its
//! own, so that a reducer that lacks some can be sent them again (Condie and others, "MapReduce Online",
//! NSDI 2010), and a SHA-256 (FIPS 180-4) of each, so that altered bytes are noticed.
#![tactic(auto)]

pub mod kept;
mod names;
mod reading;
mod rows;
mod vault;

pub use kept::{FetchFault, KeepFault, Kept};
pub use vault::Vault;
