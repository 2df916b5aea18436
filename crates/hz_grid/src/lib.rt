//! Reserved units as sets of (unit, cycle) pairs: a row is the units of one cycle, a grid has a row for each cycle. Beside it
//! cycles as sets, and reservation tables of them, which are read unit by unit.
#![tactic(auto)]

mod cycles;
mod grid_of;
mod grids;
mod laws;
mod order;
mod rows;
mod shifting;
mod table;
mod usage;
mod words;

pub use cycles::Cycles;
pub use grid_of::{CYCLES, NoMemory};
pub use grids::Grid;
pub use laws::{cycles_are_below_the_limit, what_is_taken_is_below_the_limits};
pub use rows::{Row, UNITS, rows_are_sets_of_units};
pub use table::ReservationTable;
pub use usage::{Usage, UsedRow};
