//! Laws that say a second time what the definitions say once: what the lines of answers tell, read back by a plain reader; which bypasses
//! give a pair of classes two numbers; which guard is unknown; what a load counts, and in which cycles a unit is taken; where a tables text
//! has its lines of asks; white space in the strings of a description; files of forms, written by a plain writer and read back.
#![tactic(auto)]

pub mod blank_laws;
pub mod file_laws;
pub mod guard_laws;
pub mod load_laws;
pub mod number_laws;
pub mod tables_laws;
pub mod taking_laws;
pub mod text_laws;
