//! Why an issue is refused: what forbids each alternative, who holds what, when the class fits, and a picture of what stands
//! reserved.
#![tactic(auto)]

pub mod answers;
pub mod choices;
pub mod examples;
pub mod holders;
pub mod reasons;
pub mod waits;
