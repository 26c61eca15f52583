//! A job that is run over exact ends, as on one thread: its actors take the turns of a turn list and are settled, and what they leave is read off them.
#![tactic(auto)]

pub mod crew;
pub mod driving;
pub mod folder_laws;
pub mod replaying;
pub mod script_laws;
pub mod size_laws;
pub mod snapping;
pub mod writing_laws;

pub use driving::{RunEnd, run_to_end};
pub use replaying::replay;
pub use snapping::Replayed;
