//! One automaton of a machine.

use crate::table::Table;
use hz_regexp::Name;

/// One automaton: its name, `-` where it has none, the column of each class, the names of the units that are asked for, and
/// its table. The columns of the asks come after those of the classes, and then the advance.
#[derive(Drop)]
pub struct Part {
    pub name: Name,
    pub map: Vec<u32>,
    pub asks: Vec<Name>,
    pub table: Table,
}
