//! Tables of states, row by row or as combs, and machines of a table for each automaton.
#![tactic(auto)]

mod cells;
mod laying;
mod machine;
mod packed;
mod pairs;
mod part;
mod plain;
mod steps;
mod table;

pub use cells::Cells;
pub use machine::Machine;
pub use packed::Packed;
pub use part::Part;
pub use plain::{NoMemory, Plain};
pub use steps::Steps;
pub use table::Table;
