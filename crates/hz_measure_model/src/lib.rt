//! Measures on blocks, and their laws: lower bounds, two contexts, exposed pipelines, kernels of loops.
#![tactic(auto)]

pub mod bound_laws;
pub mod duo_laws;
pub mod exposed_examples;
pub mod kernel_examples;
pub mod load_laws;
pub mod modulo_laws;
pub mod timed_laws;
