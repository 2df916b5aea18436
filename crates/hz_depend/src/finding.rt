//! What finds the instructions that one depends on: what each reads and writes, tables of it, the test of a pair, and the cycles between two.

pub(crate) mod access;
pub(crate) mod by_cell;
pub(crate) mod by_register;
pub(crate) mod listed;
pub(crate) mod marks;
pub(crate) mod numbers;
pub(crate) mod pairs;
pub(crate) mod tables;
