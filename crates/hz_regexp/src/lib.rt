//! Names, lists of names and reservation expressions, read from their texts.
#![tactic(auto)]

mod expr;
mod fault;
mod level;
mod lists;
mod names;
mod reader;
mod tokens;

pub use expr::Expr;
pub use fault::ExprFault;
pub use lists::{NamesFault, parse_names};
pub use names::{Name, NoMemory, is_name};
pub use reader::parse_expr;
