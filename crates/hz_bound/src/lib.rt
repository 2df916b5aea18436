//! A lower bound on the last cycle of every legal schedule of a block, with what shows it, and its text.
#![tactic(auto)]

mod bounding;
mod chain;
mod cycles;
mod heaviest;
mod loads;
mod parts;
mod rows;
mod tails;
mod tallies;
mod writing;

pub use bounding::bound;
pub use parts::{Bound, Load};
pub use writing::write_bound;
