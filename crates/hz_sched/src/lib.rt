//! The list scheduler: the one schedule of a block that is legal and greedy on a machine.
#![tactic(auto)]

mod adjacency;
mod board;
mod fault;
mod fitting;
mod naming;
mod parts;
mod queue;
mod scheduling;
mod spelling;
mod waiting;

pub use fault::SchedFault;
pub use naming::{class_name, number_at};
pub use parts::{Schedule, Slot};
pub use scheduling::{first_stuck, schedule};
pub use spelling::spell;
