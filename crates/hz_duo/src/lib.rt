//! Two blocks of two contexts in one pipeline: their graphs as one, the schedule of both, and its text.
#![tactic(auto)]

mod fault;
mod joining;
mod pairing;
mod parts;
mod writing;

pub use fault::DuoFault;
pub use joining::join;
pub use pairing::duo;
pub use parts::DuoSlot;
pub use writing::write_duo;
