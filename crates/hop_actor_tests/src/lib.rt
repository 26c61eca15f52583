//! Tests of what the actors of a run reach, and of the actors, through their public calls alone.
#![tactic(auto)]

#[cfg(test)]
mod bench;
#[cfg(test)]
mod boards;
#[cfg(test)]
mod cuts;
#[cfg(test)]
mod lanes;
#[cfg(test)]
mod notices;
#[cfg(test)]
mod runs;
#[cfg(test)]
mod worlds;
