//! What a pipeline accepts: events, traces and drills. And the machines that accept it: tables, what is reached, least tables, combs.
#![tactic(auto)]

pub mod acceptance;
pub mod asking;
pub mod comb_laws;
pub mod compiled;
pub mod counting;
pub mod drills;
pub mod examples;
pub mod factoring;
pub mod fitting;
pub mod leaving;
pub mod machines;
pub mod normal;
pub mod one_machine;
pub mod pipeline_laws;
pub mod restriction;
pub mod table_laws;
pub mod trace_laws;
