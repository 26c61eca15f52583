//! What is known of a run where it ended: of a split that it gave up, of the workers of the attempts that it began, of the cuts that it put, and of its mappers' numbers.
//! The laws are the contracts of functions with no body, by theme, over any ends.
#![tactic(auto)]

pub mod cut_laws;
pub mod number_laws;
pub mod reach_laws;
pub mod spent_laws;
pub mod worker_laws;
