//! Names, lines, pairs and forms: what all texts and definitions share, and their laws.
#![tactic(auto)]

pub mod form_laws;
