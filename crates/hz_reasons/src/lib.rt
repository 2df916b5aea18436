//! Why an issue is refused: a calendar into which a trace is issued, what forbids each alternative of the refused class, when the class
//! fits, and who holds what stands reserved.
#![tactic(auto)]

mod branches;
mod calendar;
mod frontier;
mod holders;
mod plan;
mod planning;
mod reasons;
mod reserved;
mod spreading;
mod statements;
mod stretch;
mod waiting;
mod walking;

pub use calendar::Calendar;
pub use frontier::{Following, Frontier, asks_leave_all_entries};
pub use holders::{Holder, Holders, cycles_left, first_holder, lines_are_those_of_issues};
pub use hz_grid::NoMemory;
pub use plan::{AutomatonUnit, Choice, Place, Plan, SetStatement};
pub use reasons::{Break, Reason};
pub use statements::adds;
pub use walking::{Asked, Walked, hold, walk};
