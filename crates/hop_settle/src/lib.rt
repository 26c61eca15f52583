//! What a coordinator does with the actors of a run, over any ends: the turns of a turn list, catching up, and settling, to the end of the run.
#![tactic(auto)]

mod begun;
mod catching;
mod drains;
mod ending;
pub mod lacking_laws;
mod late;
mod meets;
mod opening;
mod passes;
mod playing;
mod pulling;
mod pulls;
mod settling;
mod turns;
mod writing;

pub use begun::count_begun;
pub use catching::catch_up;
pub use drains::drain_all;
pub use ending::settle;
pub use opening::open;
pub use passes::map_all;
pub use playing::play;
pub use turns::{map_turn, reduce_turn, write_turn};
pub use writing::write_all;
