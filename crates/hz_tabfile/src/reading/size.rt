//! The size of a table.

/// How many columns of classes and of asks a table has before the advance, and how many states.
#[derive(Clone, Copy, Debug, PartialEq, Eq)]
pub struct Size {
    pub columns: u32,
    pub asks: u32,
    pub states: u32,
}
