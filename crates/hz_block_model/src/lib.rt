//! Blocks: what they leave, their texts, dependences and schedules, and their laws.
#![tactic(auto)]

pub mod class_laws;
pub mod dependence_laws;
pub mod examples;
pub mod grammar_laws;
pub mod kept_laws;
pub mod operator_laws;
pub mod schedulable_laws;
pub mod schedule_laws;
pub mod settling_laws;
pub mod text_laws;
