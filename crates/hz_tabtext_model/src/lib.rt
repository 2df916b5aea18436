//! The grammar of tables texts, its faults, and its laws; and what is said of compiled descriptions.
#![tactic(auto)]

pub mod faults;
pub mod lines;
pub mod said;
pub mod tables;
