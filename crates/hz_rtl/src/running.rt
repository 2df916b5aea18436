//! What runs blocks: operators on words, what each instruction stores, and the state that is left.

pub(crate) mod apply;
pub(crate) mod evaluation;
pub(crate) mod store;
