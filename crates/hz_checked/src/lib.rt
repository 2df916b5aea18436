//! What a description without a fault gives: its types, and what they keep.
#![tactic(auto)]

mod checked;

pub use checked::{Checked, CheckedAutomaton, CheckedBypass, CheckedClass};
