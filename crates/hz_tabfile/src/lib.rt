//! The tables text: reading the machine that a text stands for, and writing that of a compiled description.
#![tactic(auto)]

mod reading;
mod writing;

pub use reading::fault::TabFault;
pub use reading::machine::read_tables;
pub use writing::{text_stands, write_tables};
