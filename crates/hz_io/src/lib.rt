//! Files to read and a sink to write to, with what they mean in contracts; both in memory too.
#![tactic(auto)]

mod faults;
mod input;
mod mem_files;
mod mem_sink;
mod names;
mod output;
pub mod page;
mod pieces;
mod reading;

pub use faults::{Failed, NoMemory, SlurpFault};
pub use input::Files;
pub use mem_files::MemFiles;
pub use mem_sink::MemSink;
pub use names::FileName;
pub use output::Sink;
pub use pieces::put_all;
pub use reading::slurp;
