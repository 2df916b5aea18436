//! What machines that are compared say of the descriptions that they are compiled of.
#![tactic(auto)]

pub mod descriptions;
pub mod examples;
pub mod written;
