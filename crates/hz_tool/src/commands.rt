//! The commands, each by the word that is typed: its phases in their order, over texts that are read.

pub(crate) mod bound;
pub(crate) mod compile;
pub(crate) mod drill;
pub(crate) mod duo;
pub(crate) mod eval;
pub(crate) mod modulo;
pub(crate) mod replay;
pub(crate) mod schedule;
pub(crate) mod timed;
pub(crate) mod walk;
