//! The records of an input, found by their line feeds and kept as the places where they end, and
//! their splits.
#![tactic(auto)]

pub mod book;
mod ends;

pub use book::{Book, BookFault};
