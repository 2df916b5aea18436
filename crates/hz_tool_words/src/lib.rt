//! The words of the command line, read with `clap`.
#![tactic(auto)]

mod arguments;
mod numbers;
mod operands;
pub mod order;
mod reading;
mod table;

pub use reading::{has_option, order_of};
pub use table::usage;
