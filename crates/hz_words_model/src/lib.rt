//! The words of the command line, and laws of them.
#![tactic(auto)]

pub mod word_laws;
