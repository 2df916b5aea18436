//! In which order reservations and classes count, or which reservation reaches itself.

pub mod circle;
pub mod fault;
pub mod graph;
pub mod numbers;
pub mod order;
pub mod site;
pub mod walk;
