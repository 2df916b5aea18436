//! Reads the forms of a pipeline description, and tells which conditions hold.
#![tactic(auto)]

mod condition;
mod conditions;
mod description;
mod fault;
mod forms;
mod items;
mod kinds;
mod operands;
mod options;
mod patterns;
mod reader;

pub use condition::Condition;
pub use description::Description;
pub use fault::MdFault;
pub use items::{
    AttrItem, AutomatonItem, BypassItem, ClassItem, ReservationItem, SetForm, SetItem, UnitItem,
};
pub use options::Options;
pub use reader::read_description;
