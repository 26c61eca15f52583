//! A map worker's turn: it sends what is held, begins attempts, maps their records spill by spill, keeps
//! each spill in its vault, and offers a part of it to every reducer as soon as it is kept (Condie and
//! others, "MapReduce Online", NSDI 2010: pipelining between map and reduce, with spills kept until the
//! job ends).
#![tactic(auto)]

mod acting;
mod beginning;
mod faults;
pub mod mapper;
pub mod no_mapper;
mod running;
mod scripted;
mod spilling;
mod spills;
mod state;
mod turning;
pub mod work;

pub use mapper::Mapper;
pub use no_mapper::NoMapper;
pub use work::{Running, Work};
