//! The top call: words, files and phases, and the answer.
#![tactic(auto)]

mod commands;
mod done;
pub mod laws;
mod phases;
mod top;

pub use top::run;
