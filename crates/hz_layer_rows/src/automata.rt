//! Each step between expressions and tables: alternatives, grids, set rules, automata, and tables in each form.

pub(crate) mod alternatives;
pub(crate) mod cycles;
pub(crate) mod exploring;
pub(crate) mod forms;
pub(crate) mod grids;
pub(crate) mod rules;
pub(crate) mod states;
pub(crate) mod tables;
pub(crate) mod texts;

use crate::faults;
use std::alloc::Global;

/// What the rows of a file ask.
#[derive(Clone, Copy)]
pub enum StepRow {
    Grids,
    Joins,
    Rows,
    Units,
    Orders,
    Cycles,
    Reserved,
    Kept,
    Lists,
    Alternatives,
    Limits,
    Within,
    Projected,
    Unordered,
    Fits,
    Counts,
    Automata,
    Asked,
    Least,
    Blocks,
    Packed,
    Forms,
    Faults,
}

/// What is answered of a text, and of what stands beside it; none where these are no row, or there was no memory.
pub fn answer(alloc: Global, subject: StepRow, text: &str, beside: &str) -> Option<String> {
    match subject {
        StepRow::Grids => grids::answer_grid(alloc, text),
        StepRow::Joins => grids::answer_join(alloc, text),
        StepRow::Rows => grids::answer_rows(alloc, text),
        StepRow::Units => grids::answer_units(alloc, text),
        StepRow::Orders => grids::answer_order(alloc, text),
        StepRow::Cycles => cycles::answer_cycles(alloc, text),
        StepRow::Reserved => cycles::answer_reserved(alloc, text),
        StepRow::Kept => states::answer_grids(alloc, text),
        StepRow::Lists => states::answer_lists(alloc, text),
        StepRow::Alternatives => alternatives::answer(alloc, text, beside),
        StepRow::Limits => alternatives::answer_limits(alloc, text, beside),
        StepRow::Within => alternatives::answer_within(alloc, text, beside),
        StepRow::Projected => alternatives::answer_projected(alloc, text, beside),
        StepRow::Unordered => alternatives::answer_unordered(alloc, text),
        StepRow::Fits => rules::answer(alloc, text, beside),
        StepRow::Counts => exploring::answer_counts(alloc, text, beside),
        StepRow::Automata => exploring::answer_rows(alloc, text, beside),
        StepRow::Asked => exploring::answer_asked(alloc, text, beside),
        StepRow::Least => tables::answer_least(alloc, text),
        StepRow::Blocks => tables::answer_blocks(alloc, text),
        StepRow::Packed => tables::answer_packed(alloc, text),
        StepRow::Forms => forms::answer(alloc, text),
        StepRow::Faults => faults::answer_automata(alloc),
    }
}
