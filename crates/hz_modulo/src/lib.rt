//! The kernel of a loop: its turns are walked on a machine until they repeat, at the least interval at which they do, and its text.
#![tactic(auto)]

mod copies;
mod costs;
mod cycles;
mod edges;
mod heights;
mod jumps;
mod kernels;
mod lanes;
mod loads;
mod parts;
mod raising;
mod repeating;
mod searching;
mod sorting;
pub mod turn_laws;
mod walking;
mod weighing;
mod writing;

pub use kernels::kernel;
pub use parts::{Kernel, KernelSlot};
pub use writing::write_kernel;
