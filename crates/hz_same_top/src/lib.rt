//! The top call of the program that compares two tables texts, and the text of what is found.
#![tactic(auto)]

mod adding;
mod alone;
mod judging;
mod telling;
mod top;
mod tracing;
mod words;

pub use top::run;
