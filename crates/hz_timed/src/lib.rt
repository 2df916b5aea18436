//! What an exposed pipeline makes of a block: what each slot of a schedule reads, the state that is left, and their text.
#![tactic(auto)]

mod evaluating;
mod exposing;
pub mod laws;
mod leaving;
mod looking;
mod operators;
mod parts;
mod timing;
mod waits;
mod write;
mod writing;
mod written;

pub use exposing::exposed;
pub use parts::{ReadNote, Source, Timed};
pub use writing::write_timed;
