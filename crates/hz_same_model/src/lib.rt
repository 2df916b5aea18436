//! Whether two machines accept the same, and what the program that compares them answers, with laws.
#![tactic(auto)]

pub mod answers;
pub mod products;
pub mod same;
pub mod telling;
pub mod words;
