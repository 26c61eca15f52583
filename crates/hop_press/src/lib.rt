//! What a map worker holds back for the lanes to its reducers. A lane is a bounded queue; where it is full,
//! messages wait at the worker, and ranges that follow each other wait as one: they are read back from the
//! worker's spills when the lane has room again, and their sheets merged and combined into one run. So a
//! reducer that is late gets fewer and larger runs (Condie and others, "MapReduce Online", NSDI 2010).
#![tactic(auto)]

mod fault;
mod fetching;
mod lane;
mod press;
mod row;

pub use fault::FlushFault;
pub use press::Press;
pub use row::Row;
