//! The alternatives of all names, and what is past a limit.

pub mod expanding;
pub mod extents;
pub mod laws;
pub mod reserving;
pub mod state;
pub mod unexpanded;
pub mod unit_place;
