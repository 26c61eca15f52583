//! The texts that steer a run: fault scripts, which say where attempts fail, reducers restart and
//! workers idle, and turn lists, which say in which order the actors of a replay take their turns.
#![tactic(auto)]

mod draft;
pub mod fault;
pub mod line;
mod number;
pub mod script;
mod text;
pub mod turn;
pub mod turns;

pub use fault::LineFault;
pub use line::Line;
pub use script::Script;
pub use turn::{Actors, Turn, TurnOf};
pub use turns::Turns;
