//! The jobs that are known by name: word count, sum, grouped maximum and top k.
#![tactic(auto)]

pub mod known;
pub mod max;
mod numbers;
pub mod record;
pub mod sum;
pub mod top;
pub mod wc;

pub use known::{Jobs, Known};
pub use max::Max;
pub use sum::Sum;
pub use top::Top;
pub use wc::Wc;
