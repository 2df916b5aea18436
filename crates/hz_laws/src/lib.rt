//! Laws that nobody need believe to read the definitions: that answers exist, that machines settle, how long texts are, and that pipelines
//! of which each unit is taken earlier by a number of its own accept the same events.
#![tactic(auto)]

pub mod align_examples;
pub mod align_laws;
pub mod bypass_laws;
pub mod form_laws;
pub mod leaving_laws;
pub mod name_laws;
pub mod size_laws;
pub mod split_examples;
pub mod split_laws;
pub mod totality_laws;
