//! Classes of instructions, and which instructions of a block depend on which.
#![tactic(auto)]

mod building;
mod class;
mod fault;
mod finding;
mod nodes;
mod parts;

pub use building::graph;
pub use class::{ClassFault, class_of};
pub use fault::DependFault;
pub use finding::listed::ripe;
pub use finding::numbers::Numbers;
pub use parts::{Edge, Graph, GraphInsn};
