//! Blocks of instructions and states of registers and memory: read from their forms, what a block makes of a state, and its text.
#![tactic(auto)]

mod block;
mod fault;
pub mod laws;
mod listing;
mod reading;
mod running;
mod state;
mod storing;

pub use block::{Block, Effect, Insn, Op1, Op2, Place, Value};
pub use fault::RtlFault;
pub use listing::write_state;
pub use reading::reader::read_block;
pub use reading::state_reader::read_state;
pub use running::evaluation::eval;
pub use state::State;
pub use storing::store_data_bypass;
