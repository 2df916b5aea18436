//! Reads the forms of a machine description: lists, vectors, strings, atoms, numbers and comments.
#![tactic(auto)]

mod byte;
mod fault;
mod form;
mod place;
mod reader;
mod step;
mod string;
mod word;

pub use fault::SexpFault;
pub use form::{Form, Node, Text};
pub use reader::read_forms;
