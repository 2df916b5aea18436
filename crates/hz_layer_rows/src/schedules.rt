//! Schedules of blocks with their traces, what slots of a block read and leave, traces that are drawn, and walks word by word.

pub(crate) mod exposing;
pub(crate) mod scheduling;
pub(crate) mod walking;

use crate::faults;
use std::alloc::Global;

/// What the rows of a file ask.
#[derive(Clone, Copy)]
pub enum ScheduleRow {
    Schedules,
    Exposed,
    Drawn,
    Walked,
    Faults,
}

/// What is answered of a text, and of what stands beside it; none where these are no row, or there was no memory.
pub fn answer(alloc: Global, subject: ScheduleRow, text: &str, beside: &str) -> Option<String> {
    match subject {
        ScheduleRow::Schedules => scheduling::answer(alloc, text, beside),
        ScheduleRow::Exposed => exposing::answer(alloc, text, beside),
        ScheduleRow::Drawn => walking::answer_drawn(alloc, text, beside),
        ScheduleRow::Walked => walking::answer_walked(alloc, text, beside),
        ScheduleRow::Faults => faults::answer_schedules(alloc),
    }
}
