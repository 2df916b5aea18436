//! The texts of replays, schedules and drills: one call each.
#![tactic(auto)]

mod drilled;
mod outcomes;
mod parts_after;
mod replayed;
mod scheduled;

pub use drilled::write_drill;
pub use replayed::write_replay;
pub use scheduled::write_schedule;
