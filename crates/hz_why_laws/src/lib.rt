//! What `hz_why` and `replay` of `hz` answer to the same files, and what ties the lines of an explanation to the calendar.
#![tactic(auto)]

pub mod answers;
pub mod first;
pub mod groups;
pub mod holding;
pub mod narrow;
pub mod pictures;
pub mod stretches;
