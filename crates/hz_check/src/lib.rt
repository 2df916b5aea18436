//! Whether the names, sets and limits of a description are right, and what it gives if they are.
#![tactic(auto)]

mod checking;
mod fault;
mod faults;
mod names;
mod parts;

pub use checking::check;
pub use fault::{CheckFault, LimitName};
pub use hz_checked::{Checked, CheckedAutomaton, CheckedBypass, CheckedClass};
pub use parts::placed_sets::PlacedSet;
pub use parts::{Parts, parts_of};
