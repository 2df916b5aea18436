//! Words that are stored in registers and cells.

/// A register or a cell.
#[derive(Clone, Copy)]
pub enum Spot {
    Register(u8),
    Cell(u64),
}

/// A word that is stored in a register or a cell.
#[derive(Clone, Copy)]
pub struct Store {
    pub spot: Spot,
    pub word: u64,
}
