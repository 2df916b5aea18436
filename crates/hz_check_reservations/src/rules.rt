//! Which classes break a rule on units of several automata.

pub mod breaking;
pub mod habits;
pub mod mark;
pub mod measuring;
pub mod spread;
pub mod table;
