//! The phases that commands share: which files there are, texts judged, machines compiled, blocks scheduled, and refusals.

pub(crate) mod blocks;
pub(crate) mod compiling;
pub(crate) mod reading;
pub(crate) mod refusing;
pub(crate) mod states;
