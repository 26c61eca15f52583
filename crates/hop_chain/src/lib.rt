//! The later jobs of a chain, each over the texts of the job before it.
#![tactic(auto)]

pub mod chain;
pub mod chain_laws;

pub use chain::later;
