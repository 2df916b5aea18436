//! Traces: reading them, and replaying them over a machine of tables.
#![tactic(auto)]

mod drilling;
mod event;
mod fault;
mod lines;
mod names;
mod outcome;
mod reading;
mod replayer;
mod replaying;
mod trace;
mod words;

pub use drilling::{drill, drill_from};
pub use event::{Event, What};
pub use fault::TraceFault;
pub use names::Names;
pub use outcome::Outcome;
pub use replayer::Replayer;
pub use replaying::{play, replay};
pub use trace::{read_events, read_trace};
