//! The five set statements as rules over grids: whether what an issue adds fits what stands reserved.
#![tactic(auto)]

mod row_rules;
mod rules;
mod set_rules;

pub use row_rules::NoMemory;
pub use rules::Rules;
pub use set_rules::{SetKind, SetRule};
