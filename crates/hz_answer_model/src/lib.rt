//! What the program answers: words, texts and the phases in their order, and their laws.
#![tactic(auto)]

pub mod answers;
pub mod asks;
