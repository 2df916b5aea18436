//! Compiled descriptions, and texts of tables that are written and read.

pub(crate) mod compiling;
pub(crate) mod reading;
pub(crate) mod writing;

use crate::faults;
use std::alloc::Global;

/// What the rows of a file ask.
#[derive(Clone, Copy)]
pub enum TableRow {
    Compiled,
    Read,
    Written,
    Faults,
}

/// What is answered of a text, and of what stands beside it; none where these are no row, or there was no memory.
pub fn answer(alloc: Global, subject: TableRow, text: &str, beside: &str) -> Option<String> {
    match subject {
        TableRow::Compiled => compiling::answer(alloc, text, beside),
        TableRow::Read => reading::answer(alloc, text),
        TableRow::Written => writing::answer(alloc, text, beside),
        TableRow::Faults => faults::answer_tables(alloc),
    }
}
