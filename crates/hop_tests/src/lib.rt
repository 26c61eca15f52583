//! Tests of the crates that a run stands on, a module for each, through their public calls alone.
#![tactic(auto)]

#[cfg(test)]
mod base;
#[cfg(test)]
mod cover;
#[cfg(test)]
mod cut;
#[cfg(test)]
mod event;
#[cfg(test)]
mod fold;
#[cfg(test)]
mod jobs;
#[cfg(test)]
mod laws;
#[cfg(test)]
mod merge;
#[cfg(test)]
mod ports;
#[cfg(test)]
mod records;
#[cfg(test)]
mod script;
#[cfg(test)]
mod shelf;
#[cfg(test)]
mod spill;
#[cfg(test)]
mod vault;
