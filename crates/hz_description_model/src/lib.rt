//! Descriptions: expressions and their alternatives, the forms of a text, what can be wrong, and the laws of these.
#![tactic(auto)]

pub mod automata;
pub mod checks;
pub mod depth;
pub mod descriptions;
pub mod examples;
pub mod expression_texts;
pub mod expressions;
pub mod mentions;
pub mod split_laws;
