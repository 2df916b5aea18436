//! What is reported of a trace: what `replay` answers of it, and after it why an issue is refused or what is left, with pictures of what
//! stands reserved.
#![tactic(auto)]

mod answering;
mod details;
mod drawing;
mod explaining;
mod groups;
mod judging;
mod lists;
mod naming;
mod picture;
mod takes;
mod telling;
mod top;
mod ways;
mod whole;
mod words;

pub use answering::{answer_replay, status};
pub use explaining::{tell_left, tell_refusal};
pub use hz_grid::NoMemory;
pub use naming::trace_names;
pub use top::run;
pub use whole::{Explained, explain};
