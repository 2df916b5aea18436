//! The machine of a checked description: an automaton for each of its automata, compiled to a table.
#![tactic(auto)]

mod asks;
mod columns;
mod compiled;
mod fault;
mod part;
mod report;

pub use compiled::{Compiled, compile};
pub use fault::{AutoFault, Kind};
pub use report::{AutoReport, Shown};
