//! What a row asks.

use crate::automata::StepRow;
use crate::schedules::ScheduleRow;
use crate::tables::TableRow;
use crate::texts::TextRow;
use crate::written::text_of;
use crate::{automata, schedules, tables, texts};
use std::alloc::Global;

/// What the rows of a file ask.
#[derive(Clone, Copy)]
pub enum Subject {
    Text(TextRow),
    Step(StepRow),
    Table(TableRow),
    Schedule(ScheduleRow),
}

/// What is answered of a text, and of what stands beside it; none where these are no row, or there was no memory. Blanks
/// round the answer count only where texts are read.
pub fn answer(alloc: Global, subject: Subject, text: &[u8], beside: &[u8]) -> Option<String> {
    let (line, context) = (text_of(text), text_of(beside));
    let found = match subject {
        Subject::Text(subject) => return texts::answer(alloc, subject, text, beside).ok(),
        Subject::Step(subject) => automata::answer(alloc, subject, line, context)?,
        Subject::Table(subject) => tables::answer(alloc, subject, line, context)?,
        Subject::Schedule(subject) => schedules::answer(alloc, subject, line, context)?,
    };
    String::from_str(alloc, found.as_str().trim()).ok()
}
