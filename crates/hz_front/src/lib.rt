//! The front of every program: its host, files read by their words, texts judged, what is written of a refusal, and how a run ends.
#![tactic(auto)]

pub mod describing;
pub mod ending;
mod faults;
pub mod host;
pub mod judging;
mod limits;
pub mod reading;
pub mod refusal;
pub mod refusing;
