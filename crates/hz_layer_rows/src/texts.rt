//! What reads and judges texts: files and sinks, forms, expressions, names, descriptions and their check, blocks, words.

pub(crate) mod blocks;
pub(crate) mod checks;
pub(crate) mod conditions;
pub(crate) mod depends;
pub(crate) mod descriptions;
pub(crate) mod expressions;
pub(crate) mod files;
pub(crate) mod forms;
pub(crate) mod given;
pub(crate) mod names;
pub(crate) mod sites;
pub(crate) mod words;

use crate::faults;
use std::alloc::{AllocError, Global};

/// What the rows of a file ask.
#[derive(Clone, Copy)]
pub enum TextRow {
    Forms,
    Expressions,
    Lists,
    Names,
    Descriptions,
    Conditions,
    Blocks,
    Words,
    Reading,
    Openings,
    Sinks,
    Sites,
    Checks,
    Orders,
    Classes,
    Graphs,
    Faults,
}

/// What is answered of a text, and of what stands beside it.
pub fn answer(
    alloc: Global,
    subject: TextRow,
    text: &[u8],
    beside: &[u8],
) -> Result<String, AllocError> {
    match subject {
        TextRow::Forms => forms::answer(alloc, text),
        TextRow::Expressions => expressions::answer(alloc, text),
        TextRow::Lists => names::answer_list(alloc, text),
        TextRow::Names => names::answer_name(alloc, text),
        TextRow::Descriptions => descriptions::answer(alloc, text),
        TextRow::Conditions => conditions::answer(alloc, text, beside),
        TextRow::Blocks => blocks::answer(alloc, text, beside),
        TextRow::Words => words::answer(alloc, text),
        TextRow::Reading => files::answer_reading(alloc, text),
        TextRow::Openings => files::answer_openings(alloc, text),
        TextRow::Sinks => files::answer_sink(alloc, text),
        TextRow::Sites => sites::answer(alloc, text),
        TextRow::Checks => checks::answer(alloc, text),
        TextRow::Orders => checks::answer_order(alloc, text),
        TextRow::Classes => depends::answer_class(alloc, text, beside),
        TextRow::Graphs => depends::answer_graph(alloc, text, beside),
        TextRow::Faults => faults::answer_texts(alloc),
    }
}
