//! Reads tables texts.

mod cutting;
mod each;
pub(crate) mod fault;
mod head;
mod lines;
pub(crate) mod machine;
mod numbers;
mod operands;
mod pairs;
mod reported;
mod rest;
mod size;
mod text;
mod wrong;
