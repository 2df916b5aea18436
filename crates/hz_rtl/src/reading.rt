//! What reads texts: blocks and states of their forms, by the words that lists begin with, or the first fault.

pub(crate) mod attributes;
pub(crate) mod codes;
pub(crate) mod effects;
pub(crate) mod given;
pub(crate) mod operands;
pub(crate) mod reader;
pub(crate) mod state_reader;
pub(crate) mod values;
