//! Tests of what a user types and reads: the words of the command line, the commands, and the text of a trace.
#![tactic(auto)]

#[cfg(test)]
mod chains;
#[cfg(test)]
mod runs;
#[cfg(test)]
mod top;
#[cfg(test)]
mod trace;
#[cfg(test)]
mod words;
