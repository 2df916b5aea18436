//! The alternatives of reservation expressions: how many and how long they are, all of them in their order, and those of
//! one automaton as grids.
#![tactic(auto)]

mod alternative;
mod extents;
mod fault;
mod known;
mod listing;
mod mark;
mod projecting;

pub use alternative::{Alt, Pair};
pub use extents::Extents;
pub use extents::counting::{Held, extent};
pub use extents::measure::{ALTERNATIVE_LIMIT, CYCLE_LIMIT, Extent};
pub use fault::{AlternFault, NoMemory};
pub use known::Known;
pub use listing::SIZE_LIMIT;
pub use listing::expanding::{expand, expand_within};
pub use projecting::{part_in, project};
