//! A run as it begins, on one thread: what a run is given makes its mappers, its reducers and the world that they share. They are
//! the machine's new actors, in a world of which nothing was done.
#![tactic(auto)]

pub mod counts;
pub mod mappers;
pub mod reducers;
pub mod start_laws;
pub mod world;

pub use counts::lens_of_book;
pub use mappers::{folders_back, new_mappers};
pub use reducers::new_reducers;
pub use world::new_world;
